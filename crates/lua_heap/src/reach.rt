//! What is reached and what is owned.
ghost use Rattle.lua_heap.specs.ReachLaws.{LedIsReached, ReachedIsLed, OwnLedIsOwned, OwnedIsLed, OwnIsASet, OwnedIsReached, OwnedIsNotShared, ReachedIsOwned, OwnSetsClose, ClosedSetsOwn, UnownedStays};

/// What steps from object to object lead to is reached.
#[tactic(auto, using(crate::proofs::ReachLaws::led_is_reached))]
pub fn led_is_reached<X>()
    ensures { LedIsReached X }
{}

/// Whatever is reached steps lead to, where there is a closed set with the roots.
#[tactic(auto, using(crate::proofs::ReachLaws::reached_is_led))]
pub fn reached_is_led<X>()
    ensures { ReachedIsLed X }
{}

/// What steps lead to that enter no read-only table is owned.
#[tactic(auto, using(crate::proofs::ReachLaws::own_led_is_owned))]
pub fn own_led_is_owned<X>()
    ensures { OwnLedIsOwned X }
{}

/// Whatever is owned such steps lead to, where there is an own set with the roots.
#[tactic(auto, using(crate::proofs::ReachLaws::owned_is_led))]
pub fn owned_is_led<X>()
    ensures { OwnedIsLed X }
{}

/// What is owned is a set that can be tested, the least own set with the roots.
#[tactic(auto, using(crate::proofs::ReachLaws::own_is_a_set))]
pub fn own_is_a_set<X>()
    ensures { OwnIsASet X }
{}

/// What is owned is reached.
pub fn owned_is_reached<X>()
    ensures { OwnedIsReached X }
{}

/// What is owned is no read-only table.
#[tactic(auto, using(crate::proofs::ReachLaws::owned_is_not_shared))]
pub fn owned_is_not_shared<X>()
    ensures { OwnedIsNotShared X }
{}

/// Whatever else is reached is owned, where read-only tables name only such.
#[tactic(auto, using(crate::proofs::ReachLaws::reached_is_owned))]
pub fn reached_is_owned<X>()
    ensures { ReachedIsOwned X }
{}

/// An own set with the read-only tables is closed, where these name only such.
#[tactic(auto, using(crate::proofs::ReachLaws::own_sets_close))]
pub fn own_sets_close<X>()
    ensures { OwnSetsClose X }
{}

/// A closed set without its read-only tables is an own set.
#[tactic(auto, using(crate::proofs::ReachLaws::closed_sets_own))]
pub fn closed_sets_own<X>()
    ensures { ClosedSetsOwn X }
{}

/// What isn't owned is as it was, after a call that keeps to each own set with its roots.
#[tactic(auto, using(crate::proofs::ReachLaws::unowned_stays))]
pub fn unowned_stays<X>()
    ensures { UnownedStays X }
{}
