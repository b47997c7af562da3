// The one reduced table of a function, and that it stands for that function alone.
#![tactic(auto)]

ghost use Rattle.reduction.specs.Canonical.{TablesReadBack, TablesAreCanonical};
ghost use Rattle.reduction.specs.Mapped.{MappingNeverGrows};

use crate::interned::Interned;

pub mod interned;

// A reduced table is lawful, reads back its function, lists each thing once, and its function walked again adds nothing.
pub fn tables_read_back<L: Interned>()
    ensures { TablesReadBack L.Interned.equal }
{}

// Functions are equal exactly when their reduced tables are.
#[tactic(auto, using(crate::proofs::Once::canonical))]
pub fn tables_are_canonical<L: Interned>()
    ensures { TablesAreCanonical L.Interned.equal }
{}

// Mapping the leaves of a function never makes its reduced table larger.
pub fn mapping_never_grows<L: Interned, K: Interned>()
    ensures { MappingNeverGrows L.Interned.equal K.Interned.equal }
{}
