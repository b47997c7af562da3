// Where references stand in the order, and where they lead over a level.
ghost use Rattle.std.specs.Prelude.{◌≡◌, ◌<◌, true, false, length, slice_index_or};
ghost use Rattle.sources.specs.Inputs.{sees, place, step, Named};
ghost use Rattle.sources.specs.Spots.{roots, levels, top, down, AllNamed};

use crate::input::Input;
use crate::spot::{Branches, Spot};
use crate::three::Sources;
use diagram::lawful::level_of;
use diagram::look::branch_for;
use diagram::nodes::Reference;
use reduction::interned::Interned;

impl<L> Input<'_, L> {
    // The level that a reference's node tests, or `levels` where it is a leaf.
    fn place_of(self, levels: u16, reference: u32) -> u16
        requires { Named self reference }
        ensures { result ≡ place self.entry levels reference }
    {
        match Reference::from(reference) {
            Reference::Leaf(_) => levels,
            Reference::Node(j) => level_of(self.offset, self.table.nodes[j].condition),
        }
    }

    // The bit that a diagram sees at a level.
    fn seen(self, level: u16, bit: bool) -> bool
        ensures { result ≡ sees self.entry.fixed level bit }
    {
        match self.fixed {
            Some(fixed) if fixed.level == level => fixed.bit,
            _ => bit,
        }
    }

    fn step_down(self, level: u16, bit: bool, reference: u32) -> u32
        requires { Named self reference }
        ensures { result ≡ step self.entry level bit reference }
    {
        match Reference::from(reference) {
            Reference::Leaf(_) => reference,
            Reference::Node(j) => {
                let node = self.table.nodes[j];
                if level_of(self.offset, node.condition) == level {
                    branch_for(self.seen(level, bit), node)
                } else {
                    reference
                }
            }
        }
    }
}

impl<A, B, C> Sources<'_, '_, '_, A, B, C> {
    // Where the three diagrams begin.
    pub fn roots(self) -> Spot
        ensures { result ≡ roots self.entry }
    {
        Spot {
            first: self.first.table.root,
            second: self.second.table.root,
            third: self.third.table.root,
        }
    }

    // One level for each condition after a move and before it.
    pub fn levels(self) -> u16
        ensures { result ≡ levels self.entry }
    {
        self.conditions as u16 * 2
    }

    // The first level that one of three references tests.
    pub fn top_of(self, at: Spot) -> u16
        requires { AllNamed self at }
        ensures { result ≡ top self.entry at }
    {
        let levels = self.levels();
        let first = self.first.place_of(levels, at.first);
        let second = self.second.place_of(levels, at.second);
        let third = self.third.place_of(levels, at.third);
        first.min(second.min(third))
    }

    // Where three references lead over a level with either bit.
    pub fn branches_from(self, level: u16, at: Spot) -> Branches
        requires { AllNamed self at }
        ensures one { result.one ≡ down self.entry level true at }
        ensures zero { result.zero ≡ down self.entry level false at }
    {
        Branches {
            one: self.down_from(level, true, at),
            zero: self.down_from(level, false, at),
        }
    }

    // Where three references lead over a level.
    pub fn down_from(self, level: u16, bit: bool, at: Spot) -> Spot
        requires { AllNamed self at }
        ensures { result ≡ down self.entry level bit at }
    {
        Spot {
            first: self.first.step_down(level, bit, at.first),
            second: self.second.step_down(level, bit, at.second),
            third: self.third.step_down(level, bit, at.third),
        }
    }
}

// The leaf that a reference names.
pub fn leaf_at<L: Interned>(leaves: &[L], reference: u32) -> L
    requires { reference < length leaves.now }
    ensures { result ≡ slice_index_or leaves.now reference L.Interned.blank }
{
    leaves[reference as usize]
}
