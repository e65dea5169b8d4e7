//! Equality of values, and the border of a table.
ghost use Rattle.std.specs.Cmp.{IsEquivalence};
ghost use Rattle.lua_heap.specs.Value.{same};
ghost use Rattle.lua_heap.specs.ValueLaws.{SameDecides, NilDecides, BorderIsLeast, BorderIsOnly};

/// `same` tells whether two values are equal (manual 2.5.2).
#[tactic(auto, using(crate::proofs::ValueLaws::decides))]
pub fn same_decides()
    ensures { SameDecides }
{}

/// So it is an equivalence, as keys of tables ask for.
#[tactic(auto, using(crate::proofs::ValueLaws::equivalence))]
pub fn same_is_an_equivalence()
    ensures { IsEquivalence same }
{}

/// `is_nil` tells whether a value is nil.
#[tactic(auto, using(crate::proofs::ValueLaws::nil_decides))]
pub fn nil_decides()
    ensures { NilDecides }
{}

/// `border` is a least border, as `lua_table` says it (manual 2.5.5).
#[tactic(auto, using(crate::proofs::ValueLaws::least))]
pub fn border_is_least()
    ensures { BorderIsLeast }
{}

/// A table has no other least border.
#[tactic(auto, using(crate::proofs::ValueLaws::only))]
pub fn border_is_only()
    ensures { BorderIsOnly }
{}
