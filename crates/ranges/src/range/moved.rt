// A range moved by a reward.
ghost use Rattle.std.specs.Prelude.{◌≡◌, ◌^◌, MatchOption};
ghost use Rattle.ranges.specs.Ranges.{Inside, plus};

use crate::ends::Ends;
use crate::range::Range;

impl Range {
    // None where an end would leave the limit.
    pub fn plus(self, reward: i64) -> Option<Range>
        ensures { MatchOption result (Inside (2 ^ 41) (plus reward self.ends) → ⊥) (λ x. x.ends ≡ plus reward self.ends) }
    {
        let low = self.ends.low.checked_add(reward)?;
        let high = self.ends.high.checked_add(reward)?;
        Range::new(Ends { low, high })
    }
}
