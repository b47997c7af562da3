// Three diagrams read together: how each is read, where three references stand, and a memo of what was found there.
#![tactic(auto)]

pub mod combining;
pub mod entry;
pub mod input;
mod keeping;
pub mod memo;
mod readable;
pub mod reading;
pub mod reads;
pub mod spot;
pub mod three;
pub mod views;
