// The checking of a draft over its lists.
ghost use Rattle.std.specs.Prelude.{◌≡◌, ◌+◌, ◌*◌, true, length};
ghost use Rattle.model.specs.Held.{lists_in};
ghost use Rattle.model.specs.Models.{long_enough, cut, Fills, Checks};

use crate::model::Model;
use crate::model::held::Held;
use crate::model::verdicts::check_lists;
use faults::{Fault, FileFault, ModelFault};
use model_file::draft::Draft;
use model_file::sizes::Sizes;

fn are_long_enough(draft: Draft, lists: Held) -> bool
    ensures { result ≡ long_enough draft (lists_in lists.entry) }
{
    draft.rewards <= lists.rewards.len()
        && draft.chances <= lists.chances.len()
        && draft.reward_nodes <= lists.reward_nodes.len()
        && draft.chance_nodes <= lists.chance_nodes.len()
        && draft.sizes.roots() <= lists.roots.len()
}

// The entries that a draft counts.
fn counted<'a>(draft: Draft, lists: Held<'a>) -> Held<'a>
    requires { long_enough draft (lists_in lists) ≡ true }
    ensures { lists_in result ≡ cut draft (lists_in lists.entry) }
{
    Held {
        rewards: &lists.rewards[..draft.rewards],
        chances: &lists.chances[..draft.chances],
        reward_nodes: &lists.reward_nodes[..draft.reward_nodes],
        chance_nodes: &lists.chance_nodes[..draft.chance_nodes],
        roots: &lists.roots[..draft.sizes.roots()],
    }
}

// Fills the caller's model from lists that have just its entries, or leaves it as it was.
fn fill<'a>(sizes: Sizes, lists: Held<'a>, model: &mut Model<'a>) -> Result<(), ModelFault>
    requires { length lists.roots.now ≡ 1 + sizes.moves * sizes.conditions }
    ensures { Fills sizes (lists_in lists.entry) model.old model.new result }
{
    check_lists(sizes, lists)?;
    *model = Model { sizes, lists };
    Ok(())
}

// Fills the caller's model from a draft and its lists, or gives the first fault.
// The model is filled in place, since a caller whose draft is refused keeps the one it has.
pub fn check<'a>(draft: Draft, lists: Held<'a>, model: &mut Model<'a>) -> Result<(), Fault>
    ensures { Checks draft (lists_in lists.entry) model.old model.new result }
{
    if !are_long_enough(draft, lists) {
        return Err(FileFault::ListTooShort.into());
    }
    fill(draft.sizes, counted(draft, lists), model)?;
    Ok(())
}
