// A table in lists that are lent: its leaves, its nodes, and the reference at which it begins.
use crate::nodes::Node;

#[derive_where(Clone, Copy)]
pub struct Table<'a, L> {
    pub leaves: &'a [L],
    pub nodes: &'a [Node],
    pub root: u32,
}
