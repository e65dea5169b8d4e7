//! A function that makes an iterator, or a step of one, is called.
ghost use Rattle.lua_strings.specs.LuaStoreParts.{IsLater};
ghost use Rattle.lua_strings.specs.LuaBasicSeen.{values_seen, AllOf, Paid, AnswerOf};
ghost use Rattle.lua_strings.specs.LuaMeaningIterators.{iterator_step};
ghost use Rattle.lua_iterators.specs.Held.{cells_seen, AreOf};
ghost use Rattle.lua_iterators.specs.Table.{step_of, made_by, given_by, args_charge, answer_of};
ghost use Rattle.mw_ustrings.specs.MwFramesCosts.{Pays};

use crate::cells::{IteratorCells, cells_of};
use crate::makers::{gcodepoint, gmatch, gsplit, ustring_gmatch};
use crate::parting::part_step;
use crate::pointing::point_step;
use crate::table::{IteratorFunction, Maker, Stepper};
use crate::walking::match_step;
use lua_string::List;
use lua_strings::{Left, Stop, Store, Value, first};
use mw_text::{OneByte, OnePoint};
use mw_ustrings::giving::give_nothing;
use mw_ustrings::{pay, pay_given};
use std::alloc::Global;

/// What a step gives with the cells of its iterator.
fn step_on(
    alloc: Global,
    store: &mut Store,
    left: &mut Left,
    which: Stepper,
    cells: IteratorCells,
) -> Result<List<Value>, Stop>
    requires { AreOf store.old cells }
    ensures answer { Paid (step_of which (cells_seen cells) store.old.heap) store.old left.old
        store.new left.new result }
    ensures of { AnswerOf store.new result }
    ensures later { IsLater store.old store.new }
{
    match which {
        Stepper::Gmatch => match_step::<OneByte>(alloc, store, left, cells),
        Stepper::UstringGmatch => match_step::<OnePoint>(alloc, store, left, cells),
        Stepper::Gcodepoint => point_step(alloc, store, left, cells),
        Stepper::Gsplit => part_step(alloc, store, left, cells),
    }
}

/// What a step gives behind the charge of its arguments. The first one is the iterator.
fn step(
    alloc: Global,
    store: &mut Store,
    left: &mut Left,
    which: Stepper,
    args: &[Value],
) -> Result<List<Value>, Stop>
    requires { AllOf store.old args.now }
    ensures answer { Paid
        (iterator_step (step_of which) (values_seen store.old.texts args.now) store.old.heap)
        store.old left.old store.new left.new result }
    ensures of { AnswerOf store.new result }
    ensures later { IsLater store.old store.new }
{
    match cells_of(store, first(args)) {
        None => give_nothing(alloc, store, left, 0),
        Some(cells) => step_on(alloc, store, left, which, cells),
    }
}

/// What a maker gives behind the charge of its arguments.
fn make(
    alloc: Global,
    store: &mut Store,
    left: &mut Left,
    which: Maker,
    args: &[Value],
) -> Result<List<Value>, Stop>
    requires { AllOf store.old args.now }
    ensures answer { Paid (made_by which (values_seen store.old.texts args.now) store.old.heap)
        store.old left.old store.new left.new result }
    ensures of { AnswerOf store.new result }
    ensures later { IsLater store.old store.new }
{
    match which {
        Maker::Gmatch => gmatch(alloc, store, left, args),
        Maker::UstringGmatch => ustring_gmatch(alloc, store, left, args),
        Maker::Gcodepoint => gcodepoint(alloc, store, left, args),
        Maker::Gsplit => gsplit(alloc, store, left, args),
    }
}

/// What a function gives behind the charge of its arguments.
fn give(
    alloc: Global,
    store: &mut Store,
    left: &mut Left,
    which: IteratorFunction,
    args: &[Value],
) -> Result<List<Value>, Stop>
    requires { AllOf store.old args.now }
    ensures answer { Paid (given_by which (values_seen store.old.texts args.now) store.old.heap)
        store.old left.old store.new left.new result }
    ensures of { AnswerOf store.new result }
    ensures later { IsLater store.old store.new }
{
    match which {
        IteratorFunction::Makes(maker) => make(alloc, store, left, maker, args),
        IteratorFunction::Steps(stepper) => step(alloc, store, left, stepper, args),
    }
}

/// Takes what the arguments of a function cost: the bytes of those that are strings, but nothing in `string`.
fn pay_args(
    store: &Store,
    left: &mut Left,
    which: IteratorFunction,
    args: &[Value],
) -> Result<(), Stop>
    requires { AllOf store.now args.now }
    ensures { Pays (args_charge which (values_seen store.now.texts args.now)) left.old
        left.new result }
{
    match which {
        IteratorFunction::Makes(Maker::Gmatch) => pay(left, 0),
        IteratorFunction::Steps(Stepper::Gmatch) => pay(left, 0),
        _ => pay_given(store, left, args),
    }
}

/// What a function that makes an iterator, or a step of one, gives for these arguments, after its charge. A step gets its iterator as
/// the first argument, and changes its cells.
///
/// It is `Stop::Raised` exactly where it raises and its charge is covered, with the level whose place the caller puts in front, and
/// `Stop::Spent` exactly where its charge is not covered; then the store is as it was.
pub fn iterator_call(
    alloc: Global,
    store: &mut Store,
    left: &mut Left,
    which: IteratorFunction,
    args: &[Value],
) -> Result<List<Value>, Stop>
    requires { AllOf store.old args.now }
    ensures answer { Paid (answer_of which (values_seen store.old.texts args.now) store.old.heap)
        store.old left.old store.new left.new result }
    ensures of { AnswerOf store.new result }
    ensures later { IsLater store.old store.new }
{
    pay_args(store, left, which, args)?;
    give(alloc, store, left, which, args)
}
