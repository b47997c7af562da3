// Ranges and advice as leaves: each listed once, found by a digest of its parts.
ghost use Rattle.std.specs.Prelude.{◌≡◌, pos};
ghost use Rattle.ranges.specs.Ranges.{ends as made};
ghost use Rattle.ranges.specs.Sameness.{same_ends, same_advice, residue, ends_digest, advice_digest};
ghost use Rattle.std.proofs.Common.{rules};

use crate::ends::{Advice, Ends};
use reduction::interned::Interned;

const MODULUS: i64 = 1 << 32;

fn residue_of(z: i64) -> u64
    ensures { result ≡ residue z }
{
    z.rem_euclid(MODULUS).unsigned_abs()
}

impl Interned for Ends {
    ghost equal = { same_ends };

    ghost digested = { ends_digest };

    ghost blank = { made (pos 0) (pos 0) };

    ghost means = { Prim.search rules };

    ghost reflexive = { Prim.search rules };

    fn same(self, other: Ends) -> bool {
        self == other
    }

    fn digest(self) -> u64 {
        residue_of(self.low) * 2654435761 + residue_of(self.high) * 40503
    }
}

impl Interned for Advice {
    ghost equal = { same_advice };

    ghost digested = { advice_digest };

    ghost blank = { record { chosen = 0; ends = made (pos 0) (pos 0) } };

    ghost means = { Prim.search rules };

    ghost reflexive = { Prim.search rules };

    fn same(self, other: Advice) -> bool {
        self == other
    }

    fn digest(self) -> u64 {
        self.ends.digest() + self.chosen as u64 * 2246822519
    }
}
