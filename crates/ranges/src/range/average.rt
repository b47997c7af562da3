// A range averaged or discounted: the low end rounded down, the high end rounded up.
ghost use Rattle.std.specs.Prelude.{◌≡◌, ◌*◌, ◌^◌, ◌≤◌, pos, neg_ℤ, ◌≤ℤ◌};
ghost use Rattle.ranges.specs.Whole.{floor, ceiling};
ghost use Rattle.ranges.specs.Ranges.{average, discounted};

use crate::ends::Ends;
use crate::multiple::{mixed_of, multiple_of};
use crate::range::Range;
use crate::rounding::{ceiling_of, floor_of};

// The range from low to high ten-thousandths, rounded outwards.
fn outwards(low: i64, high: i64) -> Range
    requires ordered { low ≤ℤ high }
    requires least { neg_ℤ (pos (10000 * 2 ^ 41)) ≤ℤ low }
    requires greatest { high ≤ℤ pos (10000 * 2 ^ 41) }
    ensures rounds_down { result.ends.low ≡ floor 10000 low }
    ensures rounds_up { result.ends.high ≡ ceiling 10000 high }
{
    let ends = Ends {
        low: floor_of(low, 10_000),
        high: ceiling_of(high, 10_000),
    };
    Range { ends }
}

impl Range {
    pub fn average(chance: u16, one: Range, zero: Range) -> Range
        requires { chance ≤ 10000 }
        ensures { result.ends ≡ average chance one.ends zero.ends }
    {
        let low = mixed_of(chance, one.ends.low, zero.ends.low);
        let high = mixed_of(chance, one.ends.high, zero.ends.high);
        outwards(low, high)
    }

    pub fn discounted(self, discount: u16) -> Range
        requires { discount ≤ 10000 }
        ensures { result.ends ≡ discounted discount self.ends }
    {
        let low = multiple_of(discount, self.ends.low);
        let high = multiple_of(discount, self.ends.high);
        outwards(low, high)
    }
}
