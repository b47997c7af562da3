// What is listed once: kinds of leaf, and nodes. A kind shows when two of it are the same.
ghost use Rattle.std.specs.Prelude.{◌≡◌, ℕ, Bool, true, pos, nat_eq, unsigned_abs};
ghost use Rattle.diagram.specs.Lawful.{blank as no_node};
ghost use Rattle.reduction.specs.Walk.{same_node, node_digest};
ghost use Rattle.reduction.specs.Listed.{same_whole};
ghost use Rattle.std.proofs.Common.{rules};

use diagram::nodes::Node;

// An impl for each number: one for all of them would need a macro, and the gate takes no impl that a macro of ours writes.
pub trait Interned: Copy {
    ghost equal: { Self → Self → Bool };

    // Where a table looks for it first.
    ghost digested: { Self → ℕ };

    // What stands past the end of a list: nothing reads it.
    ghost blank: { Self };

    // By the derived `==`, tied here to the definition that the contracts cite.
    fn same(self, other: Self) -> bool
        ensures { result ≡ equal self other };

    // One number, as an index of lent numbers needs: `Hash` would want a hasher for each look.
    fn digest(self) -> u64
        ensures { result ≡ digested self };

    ghost means: { (x y : Self) → equal x y ≡ true → x ≡ y };

    ghost reflexive: { (x : Self) → equal x x ≡ true };
}

// A chance.
impl Interned for u16 {
    ghost equal = { nat_eq };

    ghost digested = { λ x. x };

    ghost blank = { 0 };

    ghost means = { Prim.search rules };

    ghost reflexive = { Prim.search rules };

    fn same(self, other: u16) -> bool {
        self == other
    }

    fn digest(self) -> u64 {
        self as u64
    }
}

// A figure of three leaves.
impl Interned for u64 {
    ghost equal = { nat_eq };

    ghost digested = { λ x. x };

    ghost blank = { 0 };

    ghost means = { Prim.search rules };

    ghost reflexive = { Prim.search rules };

    fn same(self, other: u64) -> bool {
        self == other
    }

    fn digest(self) -> u64 {
        self
    }
}

// A reward.
impl Interned for i64 {
    ghost equal = { same_whole };

    ghost digested = { unsigned_abs };

    ghost blank = { pos 0 };

    ghost means = { Prim.search rules };

    ghost reflexive = { Prim.search rules };

    fn same(self, other: i64) -> bool {
        self == other
    }

    fn digest(self) -> u64 {
        self.unsigned_abs()
    }
}

// What is given where nothing is asked for.
#[derive(Clone, Copy, PartialEq, Eq, Debug)]
pub struct Nothing;

impl Interned for Nothing {
    ghost equal = { λ _ _. true };

    ghost digested = { λ _. 0 };

    ghost blank = { record {} };

    ghost means = { Prim.search rules };

    ghost reflexive = { Prim.search rules };

    fn same(self, other: Nothing) -> bool {
        self == other
    }

    fn digest(self) -> u64 {
        0
    }
}

impl Interned for Node {
    ghost equal = { same_node };

    ghost digested = { node_digest };

    ghost blank = { no_node };

    ghost means = { Prim.search rules };

    ghost reflexive = { Prim.search rules };

    fn same(self, other: Node) -> bool {
        self == other
    }

    fn digest(self) -> u64 {
        self.one as u64 * 2654435761 + self.zero as u64 * 40503 + self.condition.number() as u64
    }
}
