// A diagram as one of those that are read together.
use diagram::table::Table;

// The bit that a diagram sees at one of the levels, whatever the bit there is.
#[derive(Clone, Copy, PartialEq, Eq, Debug)]
pub struct Fixed {
    pub level: u16,
    pub bit: bool,
}

// `offset` is the level of the before-condition 0: the number of conditions, or 0 to read a table over states over the after-conditions.
// A number, since the order is defined for any; two variants would allow less.
#[derive_where(Clone, Copy)]
pub struct Input<'a, L> {
    pub table: Table<'a, L>,
    pub offset: u8,
    pub fixed: Option<Fixed>,
}
