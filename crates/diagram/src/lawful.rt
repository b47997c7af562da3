// Which nodes are lawful, and what a reference names.
ghost use Rattle.std.specs.Prelude.{◌≡◌, ◌<◌, true, length};
ghost use Rattle.diagram.specs.Order.{level, exists};
ghost use Rattle.diagram.specs.Lawful.{names, later, branch_is_lawful, node_is_lawful};
ghost use Rattle.diagram.specs.First.{FirstFailing};

use crate::conditions::{Condition, Domain};
use crate::nodes::{Node, Reference};
use std::ops::Range;

// Where a condition stands in the order.
pub fn level_of(conditions: u8, condition: Condition) -> u16
    ensures { result ≡ level conditions condition }
{
    match condition {
        Condition::After(after) => after.0 as u16,
        Condition::Before(before) => conditions as u16 + before.0 as u16,
    }
}

fn has_condition(domain: Domain, condition: Condition) -> bool
    ensures { result ≡ exists domain condition }
{
    match condition {
        Condition::After(after) => domain.after && after.0 < domain.conditions,
        Condition::Before(before) => before.0 < domain.conditions,
    }
}

// Whether a reference names one of the counted leaves or of the first nodes.
pub fn names_something(leaves: usize, nodes: usize, reference: u32) -> bool
    ensures { result ≡ names leaves nodes reference }
{
    match Reference::from(reference) {
        Reference::Leaf(leaf) => leaf < leaves,
        Reference::Node(j) => j < nodes,
    }
}

// A list of nodes above so many leaves, and the conditions that it may test.
#[derive(Clone, Copy)]
pub struct NodeList<'a> {
    pub domain: Domain,
    pub leaves: usize,
    pub nodes: &'a [Node],
}

impl NodeList<'_> {
    // Whether the condition of a reference's node, if it is one, stands later than another.
    fn stands_later(self, condition: Condition, reference: u32) -> bool
        requires { names 65536 (length self.nodes.now) reference ≡ true }
        ensures { result ≡ later self.entry.domain.conditions self.entry.nodes.now condition reference }
    {
        let n = self.domain.conditions;
        match Reference::from(reference) {
            Reference::Leaf(_) => true,
            Reference::Node(j) => level_of(n, condition) < level_of(n, self.nodes[j].condition),
        }
    }

    fn is_lawful_branch(self, j: usize, reference: u32) -> bool
        requires { j < length self.nodes.now }
        ensures { result ≡ branch_is_lawful self.entry.domain self.entry.leaves self.entry.nodes.now j reference }
    {
        names_something(self.leaves, j, reference)
            && self.stands_later(self.nodes[j].condition, reference)
    }

    fn is_lawful_node(self, j: usize) -> bool
        requires { j < length self.nodes.now }
        ensures { result ≡ node_is_lawful self.entry.domain self.entry.leaves self.entry.nodes.now j }
    {
        let node = self.nodes[j];
        has_condition(self.domain, node.condition)
            && self.is_lawful_branch(j, node.one)
            && self.is_lawful_branch(j, node.zero)
    }

    // All nodes, by number.
    fn numbers(self) -> Range<usize>
        ensures start { result.start ≡ 0 }
        ensures end { result.end ≡ length self.entry.nodes.now }
    {
        0..self.nodes.len()
    }

    // The first unlawful node, if there is one.
    pub fn first_unlawful(self) -> Option<usize>
        ensures { FirstFailing (node_is_lawful self.entry.domain self.entry.leaves self.entry.nodes.now) (length self.entry.nodes.now) result }
    {
        self.numbers().find(|j| !self.is_lawful_node(*j))
    }
}
