// The model file: fields, their entries, and the reading of a file into the caller's lists.
#![tactic(auto)]

mod append;
pub mod draft;
mod entry;
mod field;
pub mod lists;
mod mark;
pub mod read;
pub mod sizes;
mod store;
pub mod tag;
