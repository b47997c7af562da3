// The same move, the reward added to its range.
ghost use Rattle.ranges.specs.Ranges.{plus};
ghost use Rattle.combinings.specs.Asked.{Rewarding};

use ranges::ends::Advice;
use ranges::range::Range;
use reduction::interned::Nothing;
use sources::combining::Combining;

#[derive(Clone, Copy)]
pub struct Rewarded;

impl Combining for Rewarded {
    type First = Advice;

    type Second = i64;

    type Third = Nothing;

    type Out = Advice;

    ghost can = { λ _ held reward _. Rewarding reward held.ends };

    ghost meaning = { λ _ held reward _. record { chosen = held.chosen; ends = plus reward held.ends } };

    fn combine(self, first: Advice, second: i64, _: Nothing) -> Advice {
        Advice {
            chosen: first.chosen,
            ends: Range::of(first.ends).plus(second).unwrap().ends(),
        }
    }
}
