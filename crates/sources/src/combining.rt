// What is done to the leaves of three diagrams, a leaf of each at a time.
ghost use Rattle.std.specs.Prelude.{◌≡◌, []};
ghost use Rattle.sources.specs.Spots.{levels, top, AllNamed, Allowed, values};

use crate::reading::Reading;
use crate::reads::leaf_at;
use crate::spot::Spot;
use reduction::interned::Interned;

pub trait Combining: Copy {
    type First: Interned;

    type Second: Interned;

    type Third: Interned;

    type Out: Interned;

    // What it asks of the leaves that it is given: nothing, where it does not say. It may be any type, so functions ask it by a
    // clause: in a type it could only be held where it could not be taken out again.
    ghost can: { Self → Self.First → Self.Second → Self.Third → Type 0 } = { λ _ _ _ _. Unit {0} };

    // What it gives, by the leaves alone.
    ghost meaning: { Self → Self.First → Self.Second → Self.Third → Self.Out };

    fn combine(self, first: Self::First, second: Self::Second, third: Self::Third) -> Self::Out
        requires { can self first second third }
        ensures { result ≡ meaning self first second third };
}

// What is made of three leaves.
#[tactic(auto, unfolding(diagram::specs::Reads::reach))]
pub fn combined_at<C: Combining>(
    combining: C,
    reading: Reading<C::First, C::Second, C::Third>,
    at: Spot,
) -> C::Out
    requires allowed { Allowed (C.Combining.can combining) C.First.Interned.blank C.Second.Interned.blank C.Third.Interned.blank reading.sources }
    requires named { AllNamed reading.sources at }
    requires at_leaves { top reading.sources at ≡ levels reading.sources }
    ensures { result ≡ values (C.Combining.meaning combining) C.First.Interned.blank C.Second.Interned.blank C.Third.Interned.blank reading.entry.sources (levels reading.entry.sources) at [] }
{
    let first = leaf_at(reading.sources.first.table.leaves, at.first);
    let second = leaf_at(reading.sources.second.table.leaves, at.second);
    let third = leaf_at(reading.sources.third.table.leaves, at.third);
    combining.combine(first, second, third)
}
