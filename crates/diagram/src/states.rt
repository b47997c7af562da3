// States as numbers and as lists of bits.
ghost use Rattle.diagram.specs.States.{StatesAreBits};

// A state is its bits, and any bits are a state's.
#[tactic(auto, using(crate::proofs::Numbers::states_are_bits))]
pub fn states_are_bits()
    ensures { StatesAreBits }
{}
