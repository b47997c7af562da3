// The greatest of a figure over all that three diagrams say together, without a table of it.
#![tactic(auto)]

pub mod survey;
