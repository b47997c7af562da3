// Diagrams combined into one, state by state.
#![tactic(auto)]

pub mod combine;
