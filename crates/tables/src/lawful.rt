// The test of a table, which asks nothing of what it is given.
ghost use Rattle.std.specs.Prelude.{◌≡◌, ◌≤◌, length, take, Decides};
ghost use Rattle.diagram.specs.Lawful.{node_is_lawful};
ghost use Rattle.tables.specs.Tables.{all_below, lawful_table, LawfulTable};
ghost use Rattle.tables.specs.Within.{leaf_is_within};

use crate::limits::Limits;
use crate::outside::first_outside;
use diagram::conditions::Domain;
use diagram::lawful::{NodeList, names_something};
use diagram::nodes::Node;

// How many leaves and nodes of two lists are a table's, and its root. Counts beside the lists, since a run hands in both.
#[derive(Clone, Copy)]
pub struct Extent {
    pub leaves: usize,
    pub nodes: usize,
    pub root: u32,
}

fn are_all_allowed<K: Limits>(limits: K, leaves: &[K::Leaf], count: usize) -> bool
    requires { count ≤ length leaves.now }
    ensures { result ≡ all_below (leaf_is_within (K.Limits.within limits) K.Leaf.Interned.blank leaves.now) count }
{
    first_outside(limits, &leaves[0..count]).is_none()
}

fn are_all_lawful(domain: Domain, leaves: usize, nodes: &[Node], count: usize) -> bool
    requires { count ≤ length nodes.now }
    ensures { result ≡ all_below (node_is_lawful domain leaves (take count nodes.now)) count }
{
    let list = NodeList {
        domain,
        leaves,
        nodes: &nodes[0..count],
    };
    list.first_unlawful().is_none()
}

fn passes<K: Limits>(
    limits: K,
    domain: Domain,
    leaves: &[K::Leaf],
    nodes: &[Node],
    extent: Extent,
) -> bool
    ensures { result ≡ lawful_table (K.Limits.within limits) K.Leaf.Interned.blank domain leaves.now nodes.now extent }
{
    extent.leaves <= leaves.len()
        && extent.nodes <= nodes.len()
        && names_something(extent.leaves, extent.nodes, extent.root)
        && are_all_allowed(limits, leaves, extent.leaves)
        && are_all_lawful(domain, extent.leaves, nodes, extent.nodes)
}

#[tactic(auto, using(crate::proofs::Decided::decides_table))]
pub fn is_lawful_table<K: Limits>(
    limits: K,
    domain: Domain,
    leaves: &[K::Leaf],
    nodes: &[Node],
    extent: Extent,
) -> bool
    ensures exactly { result ≡ lawful_table (K.Limits.within limits) K.Leaf.Interned.blank domain leaves.now nodes.now extent }
    ensures decides { Decides result (LawfulTable (K.Limits.within limits) K.Leaf.Interned.blank domain leaves.now nodes.now extent) }
{
    passes(limits, domain, leaves, nodes, extent)
}
