// Links two references by a node that tests the condition at a level of the order.
ghost use Rattle.std.specs.Prelude.{◌≡◌, ◌+◌, ◌<◌, ◌≤◌, length};
ghost use Rattle.listing.specs.Listing.{Stays};
ghost use Rattle.listing.specs.Linking.{Linking};
ghost use Rattle.reduction.specs.Walk.{node_for};

use crate::listed::Listed;
use diagram::conditions::{After, Before, Condition};
use diagram::nodes::{FIRST_NODE, Node};

// The node that tests the condition at a level, the conditions after a move first.
fn node_for(conditions: u8, level: u16, one: u32, zero: u32) -> Node
    requires { level < conditions + conditions }
    ensures { result ≡ node_for conditions level one zero }
{
    let n = conditions as u16;
    let condition = if level < n {
        Condition::After(After(level as u8))
    } else {
        Condition::Before(Before((level - n) as u8))
    };
    Node {
        condition,
        one,
        zero,
    }
}

// The reference to the node with these two branches, or to what both lead to; none where it would be one node too many.
// The size is asked here: in the type of the list it would forbid longer ones, which need no references.
pub fn link(
    conditions: u8,
    level: u16,
    nodes: &mut Listed<Node>,
    one: u32,
    zero: u32,
) -> Option<u32>
    requires leveled { level < conditions + conditions }
    requires small { length nodes.old.items.now ≤ 65535 }
    ensures linked { Linking conditions level one zero nodes.old nodes.new result }
    ensures stays { Stays nodes.old nodes.new }
{
    if one == zero {
        return Some(zero);
    }
    let place = nodes.intern(node_for(conditions, level, one, zero))?;
    Some(FIRST_NODE + place as u32)
}
