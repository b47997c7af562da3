// What is read together to average one condition out: a table with the condition at 1 and at 0, and the chances of the model.
ghost use Rattle.std.specs.Prelude.{◌≡◌, ◌<◌, true, false, slice_index};
ghost use Rattle.model.specs.Asking.{chance_root};
ghost use Rattle.averaging.specs.Averaged.{Fixes, ReadsChances, Laid};

use diagram::conditions::After;
use diagram::table::Table;
use model::model::Model;
use ranges::ends::Ends;
use sources::input::{Fixed, Input};
use sources::three::Sources;

// A table with a condition after a move fixed.
fn fixed(table: Table<Ends>, conditions: u8, condition: After, bit: bool) -> Input<Ends>
    ensures { Fixes conditions table.entry condition bit result }
{
    let level = condition.0 as u16;
    Input {
        table,
        offset: conditions,
        fixed: Some(Fixed { level, bit }),
    }
}

// The chances from a root on, over the conditions before a move.
fn chances<'a>(model: &Model<'a>, root: u32) -> Input<'a, u16>
    ensures { ReadsChances model.now root result }
{
    let lists = model.lists();
    let table = Table {
        leaves: lists.chances,
        nodes: lists.chance_nodes,
        root,
    };
    Input {
        table,
        offset: model.conditions(),
        fixed: None,
    }
}

pub fn sources_of<'a, 'b>(
    model: &Model<'b>,
    root: u32,
    condition: After,
    table: Table<'a, Ends>,
) -> Sources<'a, 'a, 'b, Ends, Ends, u16>
    ensures { Laid model.now root condition table.entry result }
{
    let conditions = model.conditions();
    Sources {
        conditions,
        first: fixed(table, conditions, condition, true),
        second: fixed(table, conditions, condition, false),
        third: chances(model, root),
    }
}

// Where the chances begin that a move leaves a condition at 1.
pub fn root_of(model: &Model, chosen: u8, condition: After) -> u32
    requires chosen_exists { chosen < model.now.sizes.moves }
    requires condition_exists { condition.0 < model.now.sizes.conditions }
    ensures { result ≡ slice_index model.now.lists.roots.now (chance_root model.now.sizes.conditions chosen condition.0) }
{
    let roots = model.lists().roots;
    roots[1 + (chosen as usize * model.conditions() as usize + condition.0 as usize)]
}
