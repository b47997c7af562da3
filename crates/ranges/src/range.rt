// A range of whole numbers: ordered, and within ±2^41.
ghost use Rattle.std.specs.Prelude.{◌≡◌, ◌^◌, MatchOption};
ghost use Rattle.ranges.specs.Ranges.{Ordered, Inside};

use crate::ends::Ends;

mod average;
mod moved;
mod span;

const LIMIT: i64 = 1 << 41;

#[derive(Clone, Copy)]
pub struct Range {
    ends: Ends,
    ghost ordered: { Ordered ends },
    ghost inside: { Inside (2 ^ 41) ends },
}

impl Range {
    // The range with these ends, where they are ordered and within the limit.
    pub fn new(ends: Ends) -> Option<Range>
        ensures { MatchOption result (Ordered ends → Inside (2 ^ 41) ends → ⊥) (λ x. x.ends ≡ ends) }
    {
        if ends.low <= ends.high && -LIMIT <= ends.low && ends.high <= LIMIT {
            Some(Range::of(ends))
        } else {
            None
        }
    }

    // The range with these ends, which a caller knows to be ordered and within the limit.
    pub fn of(ends: Ends) -> Range
        requires ordered { Ordered ends }
        requires inside { Inside (2 ^ 41) ends }
        ensures { result.ends ≡ ends }
    {
        Range { ends }
    }

    pub fn ends(self) -> Ends
        ensures { result ≡ self.ends }
    {
        self.ends
    }
}
