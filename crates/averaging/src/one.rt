// One condition after a move averaged out of a table.
ghost use Rattle.std.specs.Prelude.{◌≡◌, ◌<◌, length, take, IfOk};
ghost use Rattle.ranges.specs.Sameness.{same_ends};
ghost use Rattle.build.specs.Built.{Roomy, Built};
ghost use Rattle.stages.specs.Parts.{averaging};
ghost use Rattle.stages.specs.Plans.{plan_of};
ghost use Rattle.averaging.specs.Averaged.{reading, Averageable};

use crate::inputs::{root_of, sources_of};
use build::build::{Index, build};
use combine::combine::TooLarge;
use combinings::average::Average;
use diagram::conditions::After;
use diagram::nodes::Node;
use diagram::table::Table;
use model::model::Model;
use ranges::ends::Ends;
use sources::memo::Memo;
use sources::reading::Reading;
use tables::lawful::Extent;

// Fills the lists with the table in which the condition is averaged out by the chance of the move, or says that it is too large.
// Lists and memo are apart, as in `build`.
pub fn average_one(
    model: &Model,
    chosen: u8,
    condition: After,
    table: Table<Ends>,
    index: Index,
    capacity: usize,
    leaves: &mut [Ends],
    nodes: &mut [Node],
    memo: &mut Memo,
) -> Result<Extent, TooLarge>
    requires chosen_exists { chosen < model.now.sizes.moves }
    requires condition_exists { condition.0 < model.now.sizes.conditions }
    requires averageable { Averageable model.now.sizes.conditions table.leaves.now table.nodes.now table.root }
    requires roomy { Roomy capacity index (length leaves.old) (length nodes.old) }
    ensures built { Built same_ends model.now.sizes.conditions (averaging (plan_of model.now) chosen condition.0 (reading model.now.sizes.conditions table.entry.leaves.now table.entry.nodes.now table.entry.root)) capacity leaves.new nodes.new result }
    ensures again { IfOk result (λ made. Averageable model.now.sizes.conditions (take made.leaves leaves.new) (take made.nodes nodes.new) made.root) }
    ensures lent { memo.new.entries.ghost_name ≡ memo.old.entries.ghost_name }
{
    let root = root_of(model, chosen, condition);
    let sources = sources_of(model, root, condition, table);
    let reading = Reading { sources };
    build(Average, reading, index, capacity, leaves, nodes, memo)
}
