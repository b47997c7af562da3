// The range of the first move, held as the best so far.
use ranges::ends::{Advice, Ends};
use reduction::interned::Nothing;
use sources::combining::Combining;

#[derive(Clone, Copy)]
pub struct FirstGathered;

impl Combining for FirstGathered {
    type First = Ends;

    type Second = Nothing;

    type Third = Nothing;

    type Out = Advice;

    ghost meaning = { λ _ e _ _. record { chosen = 0; ends = e } };

    fn combine(self, first: Ends, _: Nothing, _: Nothing) -> Advice {
        Advice {
            chosen: 0,
            ends: first,
        }
    }
}
