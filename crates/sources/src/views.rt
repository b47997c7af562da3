// What a diagram comes to as one of those that are read together.
ghost use Rattle.sources.specs.Views.{StatesAreRead, FixedLevelsAreSet};

use reduction::interned::Interned;

// A lawful table over states gives each state its leaf, read over the conditions before a move or over those after it.
#[tactic(auto, using(crate::proofs::StatesRead::states_are_read))]
pub fn states_are_read<L: Interned>()
    ensures { StatesAreRead L.Interned.blank }
{}

// A diagram with a level fixed is the diagram at the bits with the fixed one in that place.
#[tactic(auto, using(crate::proofs::Seeing::fixed_levels_are_set))]
pub fn fixed_levels_are_set<L: Interned>()
    ensures { FixedLevelsAreSet L.Interned.blank }
{}
