// The two ends of a range as they lie in a list, and advice: a move with its ends.

#[derive(Clone, Copy, PartialEq, Eq, Debug)]
pub struct Ends {
    pub low: i64,
    pub high: i64,
}

#[derive(Clone, Copy, PartialEq, Eq, Debug)]
pub struct Advice {
    pub chosen: u8,
    pub ends: Ends,
}
