// A lawful model of one condition and one move, from which a caller starts.
ghost use Rattle.model.specs.Models.{blank_lists, IsModel};

use crate::model::Model;
use crate::model::held::Held;
use model_file::sizes::Sizes;

impl<'a> Model<'a> {
    // One condition, one move, discount one half, every reward and chance 0. A name, not `Default`: no model is the usual one.
    pub fn blank() -> Model<'a>
        ensures { IsModel (record { conditions = 1; moves = 1; discount = 5000 }) blank_lists result }
    {
        let sizes = Sizes {
            conditions: 1,
            moves: 1,
            discount: 5000,
        };
        let lists = Held {
            rewards: &[0],
            chances: &[0],
            reward_nodes: &[],
            chance_nodes: &[],
            roots: &[0, 0],
        };
        Model { sizes, lists }
    }
}
