// Three diagrams over the same conditions.
use crate::input::Input;

#[derive_where(Clone, Copy)]
pub struct Sources<'a, 'b, 'c, A, B, C> {
    pub conditions: u8,
    pub first: Input<'a, A>,
    pub second: Input<'b, B>,
    pub third: Input<'c, C>,
}
