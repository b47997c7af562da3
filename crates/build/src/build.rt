// Builds a table: a combination whose lists are lent as plain slices, with one capacity for both.
ghost use Rattle.std.specs.Prelude.{◌≡◌, length};
ghost use Rattle.sources.specs.Spots.{roots, Allowed, values};
ghost use Rattle.build.specs.Built.{Roomy, Built, LawfulIfBuilt};

use combine::combine::{TooLarge, combine};
use diagram::nodes::Node;
use listing::listed::Listed;
use reduction::interned::Interned;
use sources::combining::Combining;
use sources::memo::Memo;
use sources::reading::Reading;
use tables::lawful::Extent;

// The lists in which leaves and nodes are found again: the heads of the buckets, and the links within one.
#[derive(Drop)]
pub struct Index<'a> {
    pub leaf_heads: &'a mut [u32],
    pub leaf_next: &'a mut [u32],
    pub node_heads: &'a mut [u32],
    pub node_next: &'a mut [u32],
}

// How far a table in two lists goes.
fn extent_of<L: Interned>(leaves: &Listed<L>, nodes: &Listed<Node>, root: u32) -> Extent
    ensures { result ≡ record { leaves = leaves.now.count; nodes = nodes.now.count; root = root } }
{
    Extent {
        leaves: leaves.count,
        nodes: nodes.count,
        root,
    }
}

// Fills lists that are as long as the table may be.
fn fill<C: Combining>(
    combining: C,
    reading: Reading<C::First, C::Second, C::Third>,
    index: Index,
    leaves: &mut [C::Out],
    nodes: &mut [Node],
    memo: &mut Memo,
) -> Result<Extent, TooLarge>
    requires allowed { Allowed (C.Combining.can combining) C.First.Interned.blank C.Second.Interned.blank C.Third.Interned.blank reading.sources }
    requires roomy { Roomy (length leaves.old) index (length leaves.old) (length nodes.old) }
    requires alike { length nodes.old ≡ length leaves.old }
    ensures built { Built C.Out.Interned.equal reading.entry.sources.conditions (values (C.Combining.meaning combining) C.First.Interned.blank C.Second.Interned.blank C.Third.Interned.blank reading.entry.sources 0 (roots reading.entry.sources)) (length leaves.old) leaves.new nodes.new result }
    ensures lawful { LawfulIfBuilt reading.entry.sources.conditions nodes.new result }
    ensures lent { memo.new.entries.ghost_name ≡ memo.old.entries.ghost_name }
{
    let Index {
        leaf_heads,
        leaf_next,
        node_heads,
        node_next,
    } = index;
    let mut leaf_list = Listed::empty(leaves, leaf_heads, leaf_next);
    let mut node_list = Listed::empty(nodes, node_heads, node_next);
    let root = combine(combining, reading, &mut leaf_list, &mut node_list, memo)?;
    Ok(extent_of(&leaf_list, &node_list, root))
}

// Fills the lists with the one reduced table of three diagrams combined, and says how far it goes; or says that it has more leaves or more nodes than the capacity.
// The capacity is a number beside the lists because a run lends lists that may be longer than its tables; lists and memo are
// apart because the contract says of each what becomes of it, and are asked together (`Roomy`) for the one call.
pub fn build<C: Combining>(
    combining: C,
    reading: Reading<C::First, C::Second, C::Third>,
    index: Index,
    capacity: usize,
    leaves: &mut [C::Out],
    nodes: &mut [Node],
    memo: &mut Memo,
) -> Result<Extent, TooLarge>
    requires allowed { Allowed (C.Combining.can combining) C.First.Interned.blank C.Second.Interned.blank C.Third.Interned.blank reading.sources }
    requires roomy { Roomy capacity index (length leaves.old) (length nodes.old) }
    ensures built { Built C.Out.Interned.equal reading.entry.sources.conditions (values (C.Combining.meaning combining) C.First.Interned.blank C.Second.Interned.blank C.Third.Interned.blank reading.entry.sources 0 (roots reading.entry.sources)) capacity leaves.new nodes.new result }
    ensures lawful { LawfulIfBuilt reading.entry.sources.conditions nodes.new result }
    ensures lent { memo.new.entries.ghost_name ≡ memo.old.entries.ghost_name }
{
    fill(
        combining,
        reading,
        index,
        &mut leaves[..capacity],
        &mut nodes[..capacity],
        memo,
    )
}
