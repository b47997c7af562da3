// The sizes of a model: how many conditions and moves it has, and its discount in ten-thousandths.
ghost use Rattle.std.specs.Prelude.{◌≡◌, ◌+◌, ◌*◌, Some};
ghost use Rattle.model_file.specs.Sizes.{shown};

use std::fmt;

#[derive(Clone, Copy, PartialEq, Eq, Debug, Default)]
pub struct Sizes {
    pub conditions: u8,
    pub moves: u8,
    pub discount: u16,
}

impl Sizes {
    // How many roots there are: the reward's, and one for each move and condition.
    pub fn roots(self) -> usize
        ensures { result ≡ 1 + self.moves * self.conditions }
    {
        1 + self.moves as usize * self.conditions as usize
    }
}

impl fmt::Display for Sizes {
    ghost output = { λ sizes. Some (shown sizes) };

    fn fmt<W: fmt::Write>(&self, f: &mut fmt::Formatter<W>) -> fmt::Result {
        let Sizes {
            conditions,
            moves,
            discount,
        } = *self;
        write!(
            f,
            "conditions {conditions} moves {moves} discount {discount}"
        )
    }
}
