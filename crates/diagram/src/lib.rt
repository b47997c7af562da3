// Ordered decision diagrams in lists of nodes: conditions, references, lawfulness, and the look-up of one state.
#![tactic(auto)]

pub mod conditions;
pub mod lawful;
pub mod look;
pub mod nodes;
pub mod states;
pub mod table;
