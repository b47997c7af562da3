// The same move, its range discounted.
ghost use Rattle.ranges.specs.Ranges.{discounted};
ghost use Rattle.combinings.specs.Asked.{Discounting};

use ranges::ends::Advice;
use ranges::range::Range;
use reduction::interned::Nothing;
use sources::combining::Combining;

#[derive(Clone, Copy)]
pub struct Discounted {
    pub discount: u16,
}

impl Combining for Discounted {
    type First = Advice;

    type Second = Nothing;

    type Third = Nothing;

    type Out = Advice;

    ghost can = { λ self held _ _. Discounting self.discount held.ends };

    ghost meaning = { λ self held _ _. record { chosen = held.chosen; ends = discounted self.discount held.ends } };

    fn combine(self, first: Advice, _: Nothing, _: Nothing) -> Advice {
        Advice {
            chosen: first.chosen,
            ends: Range::of(first.ends).discounted(self.discount).ends(),
        }
    }
}
