// The model: a draft is checked, and the lawful model that comes of it answers what reward and what chances a state has.
#![tactic(auto)]

pub mod load;
pub mod model;
