// A reference into each of three diagrams. That each names something is asked by clauses: a type for it would have to know the diagrams.

#[derive(Clone, Copy, PartialEq, Eq, Debug, Default)]
pub struct Spot {
    pub first: u32,
    pub second: u32,
    pub third: u32,
}

// Where three references lead over a level: with the bit there 1, and with it 0.
#[derive(Clone, Copy, PartialEq, Eq, Debug)]
pub struct Branches {
    pub one: Spot,
    pub zero: Spot,
}
