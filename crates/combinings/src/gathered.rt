// What is held, shown one more move: the greater low end with its move, the held one at equal lows, and the greater high end.
ghost use Rattle.planning.specs.Passes.{gather};

use ranges::ends::{Advice, Ends};
use reduction::interned::Nothing;
use sources::combining::Combining;

#[derive(Clone, Copy)]
pub struct Gathered {
    pub chosen: u8,
}

impl Combining for Gathered {
    type First = Advice;

    type Second = Ends;

    type Third = Nothing;

    type Out = Advice;

    ghost meaning = { λ self held shown _. gather held self.chosen shown };

    fn combine(self, first: Advice, second: Ends, _: Nothing) -> Advice {
        let held = first.ends;
        Advice {
            chosen: if held.low < second.low {
                self.chosen
            } else {
                first.chosen
            },
            ends: Ends {
                low: held.low.max(second.low),
                high: held.high.max(second.high),
            },
        }
    }
}
