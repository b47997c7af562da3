// A reward as a range: from itself to itself.
ghost use Rattle.ranges.specs.Ranges.{ends};

use ranges::ends::Ends;
use reduction::interned::Nothing;
use sources::combining::Combining;

#[derive(Clone, Copy)]
pub struct AsRange;

impl Combining for AsRange {
    type First = i64;

    type Second = Nothing;

    type Third = Nothing;

    type Out = Ends;

    ghost meaning = { λ _ reward _ _. ends reward reward };

    fn combine(self, first: i64, _: Nothing, _: Nothing) -> Ends {
        Ends {
            low: first,
            high: first,
        }
    }
}
