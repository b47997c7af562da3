// A range as it is.
use ranges::ends::Ends;
use reduction::interned::Nothing;
use sources::combining::Combining;

#[derive(Clone, Copy)]
pub struct Kept;

impl Combining for Kept {
    type First = Ends;

    type Second = Nothing;

    type Third = Nothing;

    type Out = Ends;

    ghost meaning = { λ _ e _ _. e };

    fn combine(self, first: Ends, _: Nothing, _: Nothing) -> Ends {
        first
    }
}
