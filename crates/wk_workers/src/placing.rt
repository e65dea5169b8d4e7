//! What calls gave, put to their numbers.
ghost use Rattle.std.specs.Prelude.{◌≡◌, ℕ, ◌<◌, IfOk, OnOk, All, vec_len};
ghost use Rattle.std.specs.Fork.{GivesEach};
ghost use Rattle.wk_workers.specs.Given.{AllPlaced, Gives, IsGiven, AreGiven};

use crate::taking::Given;
use std::alloc::Global;
use wk_base::{List, NoMemory};

/// A place for each call, with nothing in it.
fn empty_places<X: Drop, F: Fn(usize) -> X>(
    alloc: Global,
    count: usize,
    f: &F,
) -> Result<Vec<Option<X>>, NoMemory>
    ensures len { IfOk result (λ places. vec_len places ≡ count) }
    ensures filled { IfOk result (λ places. AllPlaced (Gives F.Fn f.now) places.items) }
{
    let mut places = List::new(alloc);
    for _ in 0..count {
        places.push(None)?;
    }
    Ok(places.into_vec())
}

/// Puts what one worker's calls gave to their places.
fn place<X: Drop, F: Fn(usize) -> X>(
    places: &mut Vec<Option<X>>,
    count: usize,
    given: List<Given<X>>,
    f: &F,
)
    requires len { vec_len places.old ≡ count }
    requires filled { AllPlaced (Gives F.Fn f.now) places.old.items }
    requires given { All (IsGiven F.Fn f.now count) given }
    ensures len { vec_len places.new ≡ count }
    ensures filled { AllPlaced (Gives F.Fn f.now) places.new.items }
{
    let mut rest = given.into_vec();
    while let Some(next) = rest.pop() {
        places[next.number] = Some(next.value);
    }
}

/// Puts what all workers' calls gave to their places.
fn place_all<X: Drop, F: Fn(usize) -> X>(
    places: &mut Vec<Option<X>>,
    count: usize,
    parts: Vec<Result<List<Given<X>>, NoMemory>>,
    f: &F,
) -> Result<(), NoMemory>
    requires len { vec_len places.old ≡ count }
    requires filled { AllPlaced (Gives F.Fn f.now) places.old.items }
    requires given { AreGiven F.Fn f.now count parts.items }
    ensures len { OnOk result (vec_len places.new ≡ count) }
    ensures filled { OnOk result (AllPlaced (Gives F.Fn f.now) places.new.items) }
{
    let mut rest = parts;
    while let Some(part) = rest.pop() {
        place(places, count, part?, f);
    }
    Ok(())
}

/// What stands in the places, in their order.
fn in_order<X: Drop, F: Fn(usize) -> X>(
    alloc: Global,
    count: usize,
    places: Vec<Option<X>>,
    f: &F,
) -> Result<Vec<X>, NoMemory>
    requires accepts { (i : ℕ) → i < count → F.pre f.now i }
    requires len { vec_len places ≡ count }
    requires filled { AllPlaced (Gives F.Fn f.now) places.items }
    ensures len { IfOk result (λ values. vec_len values ≡ count) }
    ensures each { IfOk result (λ values. GivesEach F.Fn f.now count values.items) }
{
    let mut left = places;
    let mut values = List::new(alloc);
    for number in 0..count {
        // The counter hands out each number once, but no proof says so: a call that nobody made is made here.
        let value = match left[number].take() {
            Some(value) => value,
            None => f(number),
        };
        values.push(value)?;
    }
    Ok(values.into_vec())
}

/// What the calls gave, in the order of their numbers.
pub(crate) fn ordered<X: Drop, F: Fn(usize) -> X>(
    alloc: Global,
    count: usize,
    parts: Vec<Result<List<Given<X>>, NoMemory>>,
    f: &F,
) -> Result<Vec<X>, NoMemory>
    requires accepts { (i : ℕ) → i < count → F.pre f.now i }
    requires given { AreGiven F.Fn f.now count parts.items }
    ensures len { IfOk result (λ values. vec_len values ≡ count) }
    ensures each { IfOk result (λ values. GivesEach F.Fn f.now count values.items) }
{
    let mut places = empty_places(alloc, count, f)?;
    place_all(&mut places, count, parts, f)?;
    in_order(alloc, count, places, f)
}
