// What a table says of a state.
ghost use Rattle.std.specs.Prelude.{◌≡◌, ◌<◌, true, length, slice_index_or};
ghost use Rattle.diagram.specs.States.{bit};
ghost use Rattle.diagram.specs.Lawful.{names, Lawful};
ghost use Rattle.diagram.specs.Order.{states};
ghost use Rattle.diagram.specs.Reads.{branch, value_in, leaf_of, TablesAreFollowed};

use crate::conditions::Condition;
use crate::nodes::{Node, Reference};
use crate::table::Table;

// Whether a condition is 1 in a state. A state says nothing of the conditions after a move, and a table over states tests none.
#[tactic(auto, using(crate::proofs::Bits::bit_past))]
fn holds(state: u64, condition: Condition) -> bool
    ensures { result ≡ value_in state condition }
{
    match condition {
        Condition::Before(before) => before.0 < 64 && (state >> before.0) % 2 == 1,
        Condition::After(_) => false,
    }
}

pub fn branch_for(value: bool, node: Node) -> u32
    ensures { result ≡ branch value node }
{
    if value { node.one } else { node.zero }
}

// The number of the leaf to which a table leads in a state.
fn leaf_number<L>(conditions: u8, table: Table<L>, state: u64) -> usize
    requires lawful { Lawful (states conditions) (length table.leaves.now) table.nodes.now }
    requires named { names (length table.leaves.now) (length table.nodes.now) table.root ≡ true }
    ensures reached { result ≡ leaf_of conditions table.entry.nodes.now table.entry.root state }
    ensures counted { result < length table.entry.leaves.now }
{
    let mut reference = table.root;
    loop {
        match Reference::from(reference) {
            Reference::Leaf(leaf) => return leaf,
            Reference::Node(j) => {
                let node = table.nodes[j];
                reference = branch_for(holds(state, node.condition), node);
            }
        }
    }
}

// The leaf of a lawful table over states for one state.
pub fn look<L: Copy>(conditions: u8, table: Table<L>, state: u64) -> L
    requires lawful { Lawful (states conditions) (length table.leaves.now) table.nodes.now }
    requires named { names (length table.leaves.now) (length table.nodes.now) table.root ≡ true }
    ensures counted { leaf_of conditions table.entry.nodes.now table.entry.root state < length table.entry.leaves.now }
    ensures found { result ≡ slice_index_or table.entry.leaves.now (leaf_of conditions table.entry.nodes.now table.entry.root state) result }
{
    table.leaves[leaf_number(conditions, table, state)]
}

// Reading a lawful table level by level is following, from each node, its branch for the state.
pub fn tables_are_followed()
    ensures { TablesAreFollowed }
{}
