// What reading gives: the sizes of the model and how many entries each list has. The roots number one and moves times conditions.
use crate::sizes::Sizes;

#[derive(Clone, Copy, PartialEq, Eq, Debug, Default)]
pub struct Draft {
    pub sizes: Sizes,
    pub rewards: usize,
    pub chances: usize,
    pub reward_nodes: usize,
    pub chance_nodes: usize,
}
