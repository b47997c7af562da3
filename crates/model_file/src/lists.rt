// The lists that a caller lends for a reading, one for the entries of each tag after the sizes. Lent for writing here, held for
// reading by a model and owned by the program, so three structs have the five.
use diagram::nodes::Node;

#[derive(Drop)]
pub struct Lists<'a> {
    pub rewards: &'a mut [i64],
    pub chances: &'a mut [u16],
    pub reward_nodes: &'a mut [Node],
    pub chance_nodes: &'a mut [Node],
    pub roots: &'a mut [u32],
}
