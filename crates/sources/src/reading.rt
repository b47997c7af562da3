// Three diagrams that are known to be readable, from roots that name something.
ghost use Rattle.std.specs.Prelude.{◌≡◌};
ghost use Rattle.sources.specs.Spots.{roots, AllNamed, AllReadable};

use crate::three::Sources;
use std::alloc::AllocError;

pub struct Reading<'a, 'b, 'c, A, B, C> {
    pub sources: Sources<'a, 'b, 'c, A, B, C>,
    ghost readable: { AllReadable sources },
    ghost rooted: { AllNamed sources (roots sources) },
}

// No derive gives these to a generic struct that keeps a fact of its own.
impl<A, B, C> Clone for Reading<'_, '_, '_, A, B, C> {
    ghost is_clone = { λ x y. y ≡ x };

    ghost is_infallible = { λ _. Unit {0} };

    fn clone(&self) -> Result<Self, AllocError> {
        Ok(*self)
    }
}

impl<A, B, C> Copy for Reading<'_, '_, '_, A, B, C> {}
