//! The laws of objects: what is added or put is found, and nothing else changes. Only here are kinds counted.
ghost use Rattle.lua_heap.specs.ObjectLaws.{FreshIsFree, AddedIsThere, OldStays, OnlyAdded, PutIsThere, OthersStay, KindsFit};

/// The name that an addition takes is of no object before.
#[tactic(auto, using(crate::proofs::ObjectLaws::fresh_is_free))]
pub fn fresh_is_free<X>()
    ensures { FreshIsFree X }
{}

/// The added object has that name.
#[tactic(auto, using(crate::proofs::ObjectLaws::added_is_there))]
pub fn added_is_there<X>()
    ensures { AddedIsThere X }
{}

/// What was there is there still.
#[tactic(auto, using(crate::proofs::ObjectLaws::old_stays))]
pub fn old_stays<X>()
    ensures { OldStays X }
{}

/// Whatever is there after an addition was there, or is the added object.
#[tactic(auto, using(crate::proofs::ObjectLaws::only_added))]
pub fn only_added<X>()
    ensures { OnlyAdded X }
{}

/// An object of its kind that is put in place of one is found there.
#[tactic(auto, using(crate::proofs::ObjectLaws::put_is_there))]
pub fn put_is_there<X>()
    ensures { PutIsThere X }
{}

/// Each other name finds what it found.
#[tactic(auto, using(crate::proofs::ObjectLaws::others_stay))]
pub fn others_stay<X>()
    ensures { OthersStay X }
{}

/// An object is of the kind that its name tells.
#[tactic(auto, using(crate::proofs::ObjectLaws::kinds_fit))]
pub fn kinds_fit<X>()
    ensures { KindsFit X }
{}
