// Conditions before a move and after it, each numbered from 0 by a type of its own.
ghost use Rattle.std.specs.Prelude.{◌≡◌};
ghost use Rattle.diagram.specs.Order.{number};

#[derive(Clone, Copy, PartialEq, Eq, Debug)]
pub struct Before(pub u8);

#[derive(Clone, Copy, PartialEq, Eq, Debug)]
pub struct After(pub u8);

#[derive(Clone, Copy, PartialEq, Eq, Debug)]
pub enum Condition {
    Before(Before),
    After(After),
}

impl Condition {
    // Its number, whichever of the two it is: for showing and for hashing.
    pub fn number(self) -> u8
        ensures { result ≡ number self }
    {
        match self {
            Condition::Before(before) => before.0,
            Condition::After(after) => after.0,
        }
    }
}

// What a table may test: conditions below `conditions`, the after-conditions only where `after` says so.
// Two variants would be no plainer: the number counts in both, and each test asks for one of the two fields.
#[derive(Clone, Copy, PartialEq, Eq, Debug)]
pub struct Domain {
    pub conditions: u8,
    pub after: bool,
}
