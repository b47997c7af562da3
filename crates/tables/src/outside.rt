// The first leaf of a list that is outside its limits.
ghost use Rattle.std.specs.Prelude.{length};
ghost use Rattle.diagram.specs.First.{FirstFailing};
ghost use Rattle.tables.specs.Within.{leaf_is_within};

use crate::limits::Limits;

pub fn first_outside<K: Limits>(limits: K, leaves: &[K::Leaf]) -> Option<usize>
    ensures { FirstFailing (leaf_is_within (K.Limits.within limits) K.Leaf.Interned.blank leaves.now) (length leaves.now) result }
{
    leaves.iter().position(|leaf| !limits.allows(*leaf))
}
