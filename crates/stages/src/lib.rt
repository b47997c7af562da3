// A pass as functions of bits: what the tables of its stages say, and that they come to the ranges of the pass.
#![tactic(auto)]

ghost use Rattle.stages.specs.Parts.{PartsAreAveraged, PartsComeToRanges};

// Averaging one condition more leads from one stage to the next.
pub fn parts_are_averaged()
    ensures { PartsAreAveraged }
{}

// The first stage is the values of the states after the move, and the last is the move's range.
pub fn parts_come_to_ranges()
    ensures { PartsComeToRanges }
{}
