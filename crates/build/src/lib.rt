// The one reduced table of three diagrams combined, built in plain lent lists.
#![tactic(auto)]

pub mod build;
