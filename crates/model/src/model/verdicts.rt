// The tests of a model, a list at a time: each accepts, or gives the first fault.
ghost use Rattle.std.specs.Prelude.{◌≡◌, length, slice_index};
ghost use Rattle.diagram.specs.First.{FirstFailing};
ghost use Rattle.faults.specs.Tests.{Verdict};
ghost use Rattle.model_file.specs.Tags.{code};
ghost use Rattle.model.specs.Checking.{size_tests, limit_tests, node_tests, is_named, root_tests, model_tests};
ghost use Rattle.model.specs.Held.{lists_in};

use crate::model::held::Held;
use diagram::conditions::Domain;
use diagram::lawful::{NodeList, names_something};
use diagram::nodes::Node;
use faults::ModelFault;
use model_file::sizes::Sizes;
use model_file::tag::Tag;
use tables::limits::{ChanceLimits, Limits, RewardLimits};
use tables::outside::first_outside;

fn check_sizes(sizes: Sizes) -> Result<(), ModelFault>
    ensures { Verdict (size_tests sizes.conditions sizes.moves sizes.discount) result }
{
    let Sizes {
        conditions,
        moves,
        discount,
    } = sizes;
    let tag = Tag::Sizes.into();
    if !(1..=24).contains(&conditions) {
        return Err(ModelFault::OutsideLimits { tag, entry: 0 });
    }
    if !(1..=16).contains(&moves) {
        return Err(ModelFault::OutsideLimits { tag, entry: 1 });
    }
    if !(1..=9999).contains(&discount) {
        return Err(ModelFault::OutsideLimits { tag, entry: 2 });
    }
    Ok(())
}

fn check_limits<K: Limits>(limits: K, tag: Tag, list: &[K::Leaf]) -> Result<(), ModelFault>
    ensures { Verdict (limit_tests (code tag) (K.Limits.within limits) K.Leaf.Interned.blank list.now) result }
{
    match first_outside(limits, list) {
        Some(entry) => Err(ModelFault::OutsideLimits {
            tag: tag.into(),
            entry,
        }),
        None => Ok(()),
    }
}

fn check_nodes(tag: Tag, conditions: u8, leaves: usize, nodes: &[Node]) -> Result<(), ModelFault>
    ensures { Verdict (node_tests (code tag) conditions leaves nodes.now) result }
{
    let domain = Domain {
        conditions,
        after: false,
    };
    let list = NodeList {
        domain,
        leaves,
        nodes,
    };
    match list.first_unlawful() {
        Some(entry) => Err(ModelFault::UnlawfulNode {
            tag: tag.into(),
            entry,
        }),
        None => Ok(()),
    }
}

// Whether root k names something in its table.
fn is_named(lists: Held, k: usize, reference: u32) -> bool
    ensures { result ≡ is_named (lists_in lists.entry) k reference }
{
    if k == 0 {
        names_something(lists.rewards.len(), lists.reward_nodes.len(), reference)
    } else {
        names_something(lists.chances.len(), lists.chance_nodes.len(), reference)
    }
}

fn first_nameless(lists: Held) -> Option<usize>
    ensures { FirstFailing (λ k. is_named (lists_in lists.entry) k (slice_index lists.entry.roots.now k)) (length lists.entry.roots.now) result }
{
    lists
        .roots
        .iter()
        .enumerate()
        .position(|(k, root)| !is_named(lists, k, *root))
}

fn check_roots(lists: Held) -> Result<(), ModelFault>
    ensures { Verdict (root_tests (lists_in lists.entry)) result }
{
    match first_nameless(lists) {
        Some(entry) => Err(ModelFault::RootNamesNothing { entry }),
        None => Ok(()),
    }
}

pub fn check_lists(sizes: Sizes, lists: Held) -> Result<(), ModelFault>
    ensures { Verdict (model_tests sizes.conditions sizes.moves sizes.discount (lists_in lists.entry)) result }
{
    let conditions = sizes.conditions;
    check_sizes(sizes)?;
    check_limits(RewardLimits, Tag::Rewards, lists.rewards)?;
    check_limits(ChanceLimits, Tag::Chances, lists.chances)?;
    check_nodes(
        Tag::RewardNodes,
        conditions,
        lists.rewards.len(),
        lists.reward_nodes,
    )?;
    check_nodes(
        Tag::ChanceNodes,
        conditions,
        lists.chances.len(),
        lists.chance_nodes,
    )?;
    check_roots(lists)
}
