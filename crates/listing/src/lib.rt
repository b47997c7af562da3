// Lists that are lent with their hash index and with room for more: a thing, or a node, listed once.
#![tactic(auto)]

pub mod link;
pub mod listed;
pub mod unique;
