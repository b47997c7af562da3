// The lists that a model holds.
ghost use Rattle.std.specs.Prelude.{◌≡◌};
ghost use Rattle.model_file.specs.Lists.{held};
ghost use Rattle.model.specs.Held.{lists_in};

use diagram::nodes::Node;
use model_file::lists::Lists;

#[derive(Clone, Copy)]
pub struct Held<'a> {
    pub rewards: &'a [i64],
    pub chances: &'a [u16],
    pub reward_nodes: &'a [Node],
    pub chance_nodes: &'a [Node],
    pub roots: &'a [u32],
}

impl<'a> From<&'a Lists<'_>> for Held<'a> {
    ghost from_gives = { λ lists result. lists_in result ≡ held lists.now };

    fn from(lists: &'a Lists<'_>) -> Held<'a> {
        Held {
            rewards: lists.rewards,
            chances: lists.chances,
            reward_nodes: lists.reward_nodes,
            chance_nodes: lists.chance_nodes,
            roots: lists.roots,
        }
    }
}
