//! One run of a case.
ghost use Rattle.std.specs.Prelude.{◌≡◌, ◌+◌, ◌<◌, ◌^◌, OnOk};
ghost use Rattle.lua_machine.specs.Events.{MachineOf, EventOf};

use crate::case::Case;
use crate::replies::{Reply, Told, answer_of, change_steps};
use crate::shown::{Out, put_spent};
use crate::words::put_event;
use bumpalo::Bump;
use lua_code::NoMemory;
use lua_machine::{Event, Left, Machine, Steps, Store, World};
use page_run::Which;
use std::alloc::Global;
use std::hash::RandomState;
use std::marker::Brand;
use std::sync::ledger::{Blank, Ledger};

/// The steps and the calls that a run may take.
#[derive(Clone, Copy)]
pub struct Allowed {
    pub steps: u64,
    pub calls: u64,
}

/// How a run ended: in words, with the allowance that was spent, if one was, and the steps and calls that were left.
#[derive(Drop)]
pub struct Ended {
    pub said: Out,
    pub spent: Option<Which>,
    pub steps: u64,
    pub calls: u64,
}

/// Whether an event is a question.
fn is_question(event: &Event) -> bool {
    match event {
        Event::Asks(_) => true,
        Event::Over(_) => false,
        Event::Spent(_) => false,
    }
}

/// The allowance that an event tells.
fn spent_by(event: &Event) -> Option<Which> {
    match event {
        Event::Spent(which) => Some(*which),
        Event::Over(_) => None,
        Event::Asks(_) => None,
    }
}

/// Notes the allowance that was spent, if one was, and what is left.
fn note_left(ended: &mut Ended, left: &Left, spent: Option<Which>) {
    ended.spent = spent;
    ended.steps = left.steps;
    ended.calls = left.calls;
}

/// Notes an event in the place of the one before it.
fn note(ended: &mut Ended, store: &Store, left: &Left, event: &Event)
    requires { EventOf store.now event.now }
{
    ended.said.clear();
    put_event(&mut ended.said, store, event);
    note_left(ended, left, spent_by(event));
}

/// Notes that steps were spent.
fn note_spent(ended: &mut Ended, left: &Left) {
    ended.said.clear();
    put_spent(&mut ended.said, Which::Steps);
    note_left(ended, left, Some(Which::Steps));
}

/// Goes on until the next event, and notes it. Tells whether it is a question.
fn go_once<L: Ledger>(
    store: &mut Store,
    machine: &mut Machine,
    left: &mut Left,
    turns: &mut Steps<L>,
    ended: &mut Ended,
) -> Result<bool, NoMemory>
    requires machine { MachineOf store.old machine.old }
    requires calls { left.old.calls + machine.old.state.calls < 2 ^ 64 }
    ensures machine { OnOk result (MachineOf store.new machine.new) }
    ensures calls { OnOk result (left.new.calls + machine.new.state.calls < 2 ^ 64) }
{
    let event = machine.go(store, left, turns)?;
    note(ended, store, left, &event);
    Ok(is_question(&event))
}

/// Tells a machine the answer that a reply gives.
fn tell(
    alloc: Global,
    store: &mut Store,
    machine: &mut Machine,
    told: &Told,
) -> Result<(), NoMemory>
    requires machine { MachineOf store.old machine.old }
    requires calls { machine.old.state.calls < 2 ^ 64 }
    ensures machine { OnOk result (MachineOf store.new machine.new) }
    ensures state { OnOk result (machine.new.state ≡ machine.old.state) }
{
    let answer = answer_of(alloc, store, told)?;
    machine.answer(store, answer, 0)
}

/// Answers a question with the reply. Where that takes more steps than are left, this is noted in place of a next event. Tells whether
/// the machine goes on.
fn reply_to(
    alloc: Global,
    store: &mut Store,
    machine: &mut Machine,
    left: &mut Left,
    reply: &Reply,
    ended: &mut Ended,
) -> Result<bool, NoMemory>
    requires machine { MachineOf store.old machine.old }
    requires calls { left.old.calls + machine.old.state.calls < 2 ^ 64 }
    ensures machine { OnOk result (MachineOf store.new machine.new) }
    ensures calls { OnOk result (left.new.calls + machine.new.state.calls < 2 ^ 64) }
{
    if !change_steps(left, reply.change) {
        note_spent(ended, left);
        return Ok(false);
    }
    tell(alloc, store, machine, &reply.told)?;
    Ok(true)
}

/// Goes on until the next event. A question is answered with the reply; any other event is the last one. Tells whether the machine goes on.
fn reply_once<L: Ledger>(
    alloc: Global,
    store: &mut Store,
    machine: &mut Machine,
    left: &mut Left,
    turns: &mut Steps<L>,
    reply: &Reply,
    ended: &mut Ended,
) -> Result<bool, NoMemory>
    requires machine { MachineOf store.old machine.old }
    requires calls { left.old.calls + machine.old.state.calls < 2 ^ 64 }
    ensures machine { OnOk result (MachineOf store.new machine.new) }
    ensures calls { OnOk result (left.new.calls + machine.new.state.calls < 2 ^ 64) }
{
    if !go_once(store, machine, left, turns, ended)? {
        return Ok(false);
    }
    reply_to(alloc, store, machine, left, reply, ended)
}

/// Goes on until the end, an allowance that is spent, or a question to which there is no reply.
fn go_on<L: Ledger>(
    alloc: Global,
    store: &mut Store,
    machine: &mut Machine,
    left: &mut Left,
    turns: &mut Steps<L>,
    replies: &[Reply],
    ended: &mut Ended,
) -> Result<(), NoMemory>
    requires machine { MachineOf store.old machine.old }
    requires calls { left.old.calls + machine.old.state.calls < 2 ^ 64 }
{
    'questions: for reply in replies {
        if !reply_once(alloc, store, machine, left, turns, reply, ended)? {
            return Ok(());
        }
    }
    let _is_question = go_once(store, machine, left, turns, ended)?;
    Ok(())
}

/// The allowances of a run.
fn allowances(allowed: Allowed) -> Left
    ensures { result.calls ≡ allowed.calls }
{
    Left {
        steps: allowed.steps,
        nodes: 0,
        bytes: 0,
        calls: allowed.calls,
        depth: 0,
        templates: 0,
    }
}

/// Runs a machine that has started, with a counter of its own.
fn run_started<L: Ledger>(
    alloc: Global,
    store: &mut Store,
    machine: &mut Machine,
    left: &mut Left,
    replies: &[Reply],
    blank: Blank,
    ended: &mut Ended,
) -> Result<(), NoMemory>
    requires machine { MachineOf store.old machine.old }
    requires calls { left.old.calls + machine.old.state.calls < 2 ^ 64 }
    requires name { blank.name ≡ L.name }
    requires parts { blank.parts ≡ L.parts }
    requires one { blank.parts ≡ 1 }
{
    let mut turns = Steps::<L>::open(blank);
    go_on(alloc, store, machine, left, &mut turns, replies, ended)
}

/// The world in which a case runs.
pub fn world_of<'m>(case: &'m Case) -> World<'m> {
    World {
        page: &case.page,
        modules: &case.modules,
    }
}

/// Runs a case once in this store.
fn run_in(
    alloc: Global,
    store: &mut Store,
    seed: RandomState,
    case: &Case,
    allowed: Allowed,
    ended: &mut Ended,
) -> Result<(), NoMemory> {
    let work = case.work(alloc, seed)?;
    let mut machine = Machine::start(alloc, store, seed, world_of(case), work)?;
    let mut left = allowances(allowed);
    let replies = case.replies.as_slice();
    let blank = Blank::new(1);
    run_started::<Brand>(alloc, store, &mut machine, &mut left, replies, blank, ended)
}

/// Runs a case once, in a store of its own.
fn run(
    alloc: Global,
    seed: RandomState,
    case: &Case,
    allowed: Allowed,
    ended: &mut Ended,
) -> Result<(), NoMemory> {
    let arena = Bump::new(alloc);
    let mut store = Store::new(alloc, &arena, seed);
    run_in(alloc, &mut store, seed, case, allowed, ended)
}

fn not_ended(alloc: Global) -> Ended {
    Ended {
        said: Out::new(alloc),
        spent: None,
        steps: 0,
        calls: 0,
    }
}

/// How a case ends that is run once.
pub fn end_of(
    alloc: Global,
    seed: RandomState,
    case: &Case,
    allowed: Allowed,
) -> Result<Ended, NoMemory> {
    let mut ended = not_ended(alloc);
    match run(alloc, seed, case, allowed, &mut ended) {
        Ok(()) if !ended.said.is_lacking => Ok(ended),
        _ => Err(NoMemory),
    }
}
