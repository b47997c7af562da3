// A node of a diagram, and what a reference names: below 65,536 the leaf of that number, and 65,536 + j is node j.
ghost use Rattle.std.specs.Prelude.{Some};
ghost use Rattle.diagram.specs.References.{RefersTo, shown};

use crate::conditions::Condition;
use std::fmt;

// References are numbers, as the file and the lent lists have them; the code takes them apart where it follows them.
#[derive(Clone, Copy, PartialEq, Eq, Debug)]
pub struct Node {
    pub condition: Condition,
    pub one: u32,
    pub zero: u32,
}

pub const FIRST_NODE: u32 = 65536;

#[derive(Clone, Copy, PartialEq, Eq, Debug)]
pub enum Reference {
    Leaf(usize),
    Node(usize),
}

impl From<u32> for Reference {
    ghost from_gives = { RefersTo };

    fn from(number: u32) -> Reference {
        match number.checked_sub(FIRST_NODE) {
            Some(j) => Reference::Node(j as usize),
            None => Reference::Leaf(number as usize),
        }
    }
}

impl fmt::Display for Node {
    ghost output = { λ node. Some (shown node) };

    fn fmt<W: fmt::Write>(&self, f: &mut fmt::Formatter<W>) -> fmt::Result {
        let condition = self.condition.number();
        let Node { one, zero, .. } = *self;
        write!(f, "{condition}:{one}:{zero}")
    }
}
