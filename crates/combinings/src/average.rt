// The range at 1 and the range at 0 of a condition, averaged by its chance.
ghost use Rattle.ranges.specs.Ranges.{average};
ghost use Rattle.combinings.specs.Asked.{Averaging};

use ranges::ends::Ends;
use ranges::range::Range;
use sources::combining::Combining;

#[derive(Clone, Copy)]
pub struct Average;

impl Combining for Average {
    type First = Ends;

    type Second = Ends;

    type Third = u16;

    type Out = Ends;

    ghost can = { λ _ one zero chance. Averaging chance one zero };

    ghost meaning = { λ _ one zero chance. average chance one zero };

    fn combine(self, first: Ends, second: Ends, third: u16) -> Ends {
        Range::average(third, Range::of(first), Range::of(second)).ends()
    }
}
