// The sizes of a model and its lists.
ghost use Rattle.std.specs.Prelude.{◌≡◌};
ghost use Rattle.model.specs.Held.{lists_in};
ghost use Rattle.model.specs.Models.{lists_of};

use crate::model::Model;
use crate::model::held::Held;
use model_file::sizes::Sizes;

impl<'a> Model<'a> {
    pub fn sizes(&self) -> Sizes
        ensures { result ≡ self.now.sizes }
    {
        self.sizes
    }

    pub fn lists(&self) -> Held<'a>
        ensures { lists_in result ≡ lists_of self.now }
    {
        self.lists
    }
}
