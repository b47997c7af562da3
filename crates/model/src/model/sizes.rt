// Each size of a model.
ghost use Rattle.std.specs.Prelude.{◌≡◌};

use crate::model::Model;

impl Model<'_> {
    pub fn conditions(&self) -> u8
        ensures { result ≡ self.now.sizes.conditions }
    {
        self.sizes.conditions
    }

    pub fn moves(&self) -> u8
        ensures { result ≡ self.now.sizes.moves }
    {
        self.sizes.moves
    }

    // In ten-thousandths.
    pub fn discount(&self) -> u16
        ensures { result ≡ self.now.sizes.discount }
    {
        self.sizes.discount
    }
}
