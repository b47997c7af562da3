// The range that a move gives in each state: the conditions after it averaged out one by one.
#![tactic(auto)]

mod inputs;
pub mod one;
