// The walk of three diagrams at once: each triple of references is visited once as long as the memo holds it, and its table is listed as the one reduced table.
ghost use Rattle.std.specs.Prelude.{◌≡◌, ◌≤◌, length};
ghost use Rattle.listing.specs.Listing.{Stays, Interning};
ghost use Rattle.sources.specs.Memos.{Unused};
ghost use Rattle.sources.specs.Spots.{roots, top, AllNamed, Allowed, values};
ghost use Rattle.combine.specs.Working.{Working, Lasts, Visited, Combined};

use diagram::nodes::Node;
use listing::link::link;
use listing::listed::Listed;
use reduction::interned::Interned;
use sources::combining::{Combining, combined_at};
use sources::memo::Memo;
use sources::reading::Reading;
use sources::spot::Spot;

// Lists a leaf and gives its reference; none where it is one too many.
fn list_leaf<L: Interned>(leaves: &mut Listed<L>, leaf: L) -> Option<u32>
    requires { length leaves.old.items.now ≤ 65535 }
    ensures listed { Interning L.Interned.equal leaves.old leaves.new leaf result }
    ensures stays { Stays leaves.old leaves.new }
{
    let place = leaves.intern(leaf)?;
    Some(place as u32)
}

// Lists the table of what is read from three references, and gives its root; none where it is too large.
// Leaves and nodes are two parameters: of lists lent two structs deep Rattle knows only the lengths afterwards (tried).
fn visit<C: Combining>(
    combining: C,
    reading: Reading<C::First, C::Second, C::Third>,
    leaves: &mut Listed<C::Out>,
    nodes: &mut Listed<Node>,
    memo: &mut Memo,
    from: u16,
    at: Spot,
) -> Option<u32>
    requires allowed { Allowed (C.Combining.can combining) C.First.Interned.blank C.Second.Interned.blank C.Third.Interned.blank reading.sources }
    requires named { AllNamed reading.sources at }
    requires above { from ≤ top reading.sources at }
    requires working { Working C.Out.Interned.equal reading.sources (values (C.Combining.meaning combining) C.First.Interned.blank C.Second.Interned.blank C.Third.Interned.blank reading.sources) leaves.old nodes.old memo.old }
    ensures visited { Visited C.Out.Interned.equal reading.entry.sources.conditions from (values (C.Combining.meaning combining) C.First.Interned.blank C.Second.Interned.blank C.Third.Interned.blank reading.entry.sources from at) leaves.old leaves.new nodes.old nodes.new result }
    ensures working { Working C.Out.Interned.equal reading.entry.sources (values (C.Combining.meaning combining) C.First.Interned.blank C.Second.Interned.blank C.Third.Interned.blank reading.entry.sources) leaves.new nodes.new memo.new }
    ensures lasts { Lasts leaves.old leaves.new nodes.old nodes.new memo.old memo.new }
{
    memo.count_visit();
    let level = reading.sources.top_of(at);
    if level == reading.sources.levels() {
        let leaf = combined_at(combining, reading, at);
        return list_leaf(leaves, leaf);
    }
    if let Some(known) = memo.recall(at) {
        return Some(known);
    }
    let next = level + 1;
    let ahead = reading.sources.branches_from(level, at);
    let one = visit(combining, reading, leaves, nodes, memo, next, ahead.one)?;
    let zero = visit(combining, reading, leaves, nodes, memo, next, ahead.zero)?;
    let root = link(reading.sources.conditions, level, nodes, one, zero)?;
    memo.remember(at, root);
    Some(root)
}

// Empties the lists, and gives the memo a stamp under which nothing is remembered.
fn begin<L: Interned>(leaves: &mut Listed<L>, nodes: &mut Listed<Node>, memo: &mut Memo)
    ensures no_leaf { leaves.new.count ≡ 0 }
    ensures no_node { nodes.new.count ≡ 0 }
    ensures leaves_stay { Stays leaves.old leaves.new }
    ensures nodes_stay { Stays nodes.old nodes.new }
    ensures unused { Unused memo.new.entries.now memo.new.stamp }
    ensures lent { memo.new.entries.ghost_name ≡ memo.old.entries.ghost_name }
{
    memo.renew();
    leaves.clear();
    nodes.clear();
}

// The table has more leaves or more nodes than may be counted.
#[derive(Clone, Copy, PartialEq, Eq, Debug)]
pub struct TooLarge;

// Fills the lists with the one reduced table of three diagrams combined, and gives its root; or says that it is too large.
pub fn combine<C: Combining>(
    combining: C,
    reading: Reading<C::First, C::Second, C::Third>,
    leaves: &mut Listed<C::Out>,
    nodes: &mut Listed<Node>,
    memo: &mut Memo,
) -> Result<u32, TooLarge>
    requires allowed { Allowed (C.Combining.can combining) C.First.Interned.blank C.Second.Interned.blank C.Third.Interned.blank reading.sources }
    requires few_leaves { length leaves.old.items.now ≤ 65535 }
    requires few_nodes { length nodes.old.items.now ≤ 65535 }
    ensures combined { Combined C.Out.Interned.equal reading.entry.sources.conditions (values (C.Combining.meaning combining) C.First.Interned.blank C.Second.Interned.blank C.Third.Interned.blank reading.entry.sources 0 (roots reading.entry.sources)) leaves.new nodes.new result }
    ensures leaves_stay { Stays leaves.old leaves.new }
    ensures nodes_stay { Stays nodes.old nodes.new }
    ensures lent { memo.new.entries.ghost_name ≡ memo.old.entries.ghost_name }
{
    begin(leaves, nodes, memo);
    let roots = reading.sources.roots();
    visit(combining, reading, leaves, nodes, memo, 0, roots).ok_or(TooLarge)
}
