// The range of advice, its move dropped.
use ranges::ends::{Advice, Ends};
use reduction::interned::Nothing;
use sources::combining::Combining;

#[derive(Clone, Copy)]
pub struct Unmoved;

impl Combining for Unmoved {
    type First = Advice;

    type Second = Nothing;

    type Third = Nothing;

    type Out = Ends;

    ghost meaning = { λ _ held _ _. held.ends };

    fn combine(self, first: Advice, _: Nothing, _: Nothing) -> Ends {
        first.ends
    }
}
