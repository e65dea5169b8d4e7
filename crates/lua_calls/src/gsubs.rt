//! `gsub` (manual 5.4, `string.gsub`; Scribunto, `mw.ustring.gsub`): a text replaces at once, and a table or a function is asked for each
//! match.
ghost use Rattle.std.specs.Prelude.{◌∷◌, None, length, IfOk};
ghost use Rattle.lua_code.specs.LuaHeapValue as kind;
ghost use Rattle.lua_gsubs.specs.LuaMeaningGsub.{gsub_form, replacement_given};
ghost use Rattle.lua_modules.specs.LuaMeaningPending.{GsubWaits};
ghost use Rattle.lua_modules.specs.LuaSlotsErrors.{with_argument};
ghost use Rattle.lua_code.specs.LuaSlotsGsub as machine;
ghost use Rattle.lua_code.specs.LuaSlotsIndex as indices;
ghost use Rattle.lua_code.specs.LuaSlotsLibraries as libraries;
ghost use Rattle.lua_modules.specs.LuaSlotsPoints.{Waits};
ghost use Rattle.lua_tables.specs.LuaStoreParts.{IsOf, IsTableOf};
ghost use Rattle.lua_tables.specs.LuaStoreSeen.{seen, text_at};
ghost use Rattle.lua_tables.specs.LuaBasicSeen.{AllOf};
ghost use Rattle.lua_modules.specs.LuaStackOf.{PendingOf, ValuesOf};
ghost use Rattle.lua_modules.specs.LuaStackSeen.{pending_seen, values_seen};
ghost use Rattle.lua_modules.specs.LuaStateMakes.{LateMakes, Makes};
ghost use Rattle.lua_modules.specs.LuaStateOf.{OutcomeOf, StateOf};
ghost use Rattle.lua_modules.specs.LuaStateSeen.{frames_of, outcome_seen, slots_of};
ghost use Rattle.lua_gsubs.specs.LuaReplacingSeen.{far_seen, job_seen, replacing_seen, JobOf, ReplacingOf, StandWithin};
ghost use Rattle.lua_gsubs.specs.Table.{alphabet_of};
ghost use Rattle.lua_gsubs.specs.Begun.{BegunOf};
ghost use Rattle.lua_calls.specs.Ends.{BegunMakes};

use lua_acts::exits::{call_and_wait, give_all, pass};
use lua_acts::refuse;
use lua_code::NoMemory;
use lua_gsubs::answering::made_values;
use lua_gsubs::filling::Halt;
use lua_gsubs::resuming::{Given, complete, put_given};
use lua_gsubs::{
    Begun, Far, GsubFunction, Job, Replacer, Replacing, Sought, gsub_begin, seek, span,
};
use lua_modules::{Frame, Outcome, Pending, State, Turn, Values, fail, finish, index_table};
use lua_tables::{Left, Stop, Store, TableId, Value};
use mw_frame::List;
use page_run::Which;
use std::alloc::Global;

/// The text that is made, and how many matches were replaced, for a step a byte of the rest of the subject.
fn end_job<'m>(
    alloc: Global,
    store: &mut Store,
    left: &mut Left,
    state: &State<'m>,
    job: Job,
    far: Far,
) -> Result<Turn<'m>, NoMemory>
    requires state { StateOf store.old state.now }
    requires job { JobOf store.old job }
    ensures { IfOk result (λ r. Makes store.old state.now left.old store.new state.now left.new
        (machine.finish (job_seen store.old.texts job) (far_seen far) (frames_of store.old state.now) (slots_of store.old state.now)) r) }
{
    let mut far = far;
    match complete(left, store.bytes(job.subject), &mut far) {
        Err(Halt::Spent) => Ok(Turn::Spent(Which::Steps)),
        Err(_) => Err(NoMemory),
        Ok(_) => {
            let values = made_values(alloc, store, far.text.as_slice(), far.count)?;
            Ok(give_all(store, state, Values::of_list(values)))
        }
    }
}

/// A table is indexed from no place of a text, and a function of the library that was called from this line waits for the value.
fn index_and_wait<'m>(
    alloc: Global,
    store: &mut Store,
    left: &mut Left,
    state: &mut State<'m>,
    table: TableId,
    key: Value,
    pending: Pending,
    line: Option<u32>,
) -> Result<Turn<'m>, NoMemory>
    requires state { StateOf store.old state.old }
    requires table { IsTableOf store.old table }
    requires key { IsOf store.old key }
    requires pending { PendingOf store.old pending }
    ensures { IfOk result (λ r. Makes store.old state.old left.old store.new state.new left.new
        (indices.index (kind.Table table.at) (seen store.old.texts key) None (Waits (pending_seen store.old.texts pending) line ∷ frames_of store.old state.old) (slots_of store.old state.old)) r) }
{
    state.frames.push(Frame::Waits(pending, line))?;
    let step = index_table(store, &state.env, table, key, None);
    let turn = finish(alloc, store, left, state, step)?;
    Ok(turn)
}

/// The replacement of a match is asked for.
fn ask<'m>(
    alloc: Global,
    store: &mut Store,
    left: &mut Left,
    state: &mut State<'m>,
    waits: Replacing,
    captures: List<Value>,
    line: Option<u32>,
) -> Result<Turn<'m>, NoMemory>
    requires state { StateOf store.old state.old }
    requires waits { ReplacingOf store.old waits }
    requires captures { AllOf store.old captures }
    ensures { IfOk result (λ r. Makes store.old state.old left.old store.new state.new left.new
        (machine.asks (replacing_seen store.old.texts waits).job.by (values_seen store.old.texts captures) (Waits (GsubWaits (replacing_seen store.old.texts waits)) line ∷ frames_of store.old state.old) (slots_of store.old state.old)) r) }
{
    let by = waits.job.by;
    let captures = Values::of_list(captures);
    let pending = match Box::new(alloc, waits) {
        Ok(waits) => Pending::Gsub(waits),
        Err(_) => return Err(NoMemory),
    };
    match by {
        Replacer::Table(table) => {
            let key = captures.first();
            index_and_wait(alloc, store, left, state, table, key, pending, line)
        }
        Replacer::Function(function) => {
            call_and_wait(alloc, store, left, state, function, captures, pending, line)
        }
    }
}

/// The replacement of the next match is asked for, of which there may be so many; or the job ends.
fn replace<'m>(
    alloc: Global,
    store: &mut Store,
    left: &mut Left,
    state: &mut State<'m>,
    job: Job,
    limit: u64,
    far: Far,
    line: Option<u32>,
) -> Result<Turn<'m>, NoMemory>
    requires state { StateOf store.old state.old }
    requires job { JobOf store.old job }
    requires within { StandWithin (length (text_at store.old.texts job.subject.at)) far.next }
    ensures { IfOk result (λ r. Makes store.old state.old left.old store.new state.new left.new
        (machine.replaces (job_seen store.old.texts job) limit (far_seen far) line (frames_of store.old state.old) (slots_of store.old state.old)) r) }
{
    let mut far = far;
    if limit == 0 {
        return end_job(alloc, store, left, state, job, far);
    }
    match seek(alloc, store, left, &job, &mut far) {
        Err(Stop::Spent) => Ok(Turn::Spent(Which::Steps)),
        Err(_) => Err(NoMemory),
        Ok(Sought::NoMatch) => end_job(alloc, store, left, state, job, far),
        Ok(Sought::Matched(captures, start, end)) => {
            let waits = Replacing {
                job,
                limit: limit - 1,
                far,
                start,
                end,
            };
            ask(alloc, store, left, state, waits, captures, line)
        }
    }
}

/// What was given for a match is put in its place, for a step a byte, and the next one is asked for.
fn go_on<'m>(
    alloc: Global,
    store: &mut Store,
    left: &mut Left,
    state: &mut State<'m>,
    waits: Replacing,
    value: Value,
    line: Option<u32>,
) -> Result<Turn<'m>, NoMemory>
    requires state { StateOf store.old state.old }
    requires waits { ReplacingOf store.old waits }
    requires value { IsOf store.old value }
    ensures { IfOk result (λ r. Makes store.old state.old left.old store.new state.new left.new
        (with_argument (replacement_given (replacing_seen store.old.texts waits).matched (seen store.old.texts value)) line (frames_of store.old state.old) (slots_of store.old state.old)
        (λ piece. machine.puts (replacing_seen store.old.texts waits) piece line (frames_of store.old state.old) (slots_of store.old state.old))) r) }
{
    let Replacing {
        job,
        limit,
        far,
        start,
        end,
    } = waits;
    let mut far = far;
    let whole = span(store.bytes(job.subject), start, end);
    let given = put_given(alloc, store, left, &mut far, whole, value)?;
    match given {
        Given::Put => replace(alloc, store, left, state, job, limit, far, line),
        Given::Spent => Ok(Turn::Spent(Which::Steps)),
        Given::Refused(message) => { fail(alloc, store, left, state, line, message.as_slice()) }
    }
}

/// What was asked for the replacement of a match came to this.
pub fn gsub_answer<'m>(
    alloc: Global,
    store: &mut Store,
    left: &mut Left,
    state: &mut State<'m>,
    waits: Box<Replacing>,
    outcome: Outcome,
    line: Option<u32>,
) -> Result<Turn<'m>, NoMemory>
    requires state { StateOf store.old state.old }
    requires waits { ReplacingOf store.old waits.value }
    requires outcome { OutcomeOf store.old outcome }
    ensures { IfOk result (λ r. Makes store.old state.old left.old store.new state.new left.new
        (machine.gsub_answer (replacing_seen store.old.texts waits.value) (outcome_seen store.old.texts outcome) line (frames_of store.old state.old) (slots_of store.old state.old)) r) }
{
    match outcome {
        Outcome::Goes(given) => {
            let value = given.first();
            go_on(
                alloc,
                store,
                left,
                state,
                Box::into_inner(waits),
                value,
                line,
            )
        }
        Outcome::Jumps(jump) => Ok(pass(store, state, jump)),
    }
}

/// A call that has answered, or that begins to ask.
pub fn go_from<'m>(
    alloc: Global,
    store: &mut Store,
    left: &mut Left,
    state: &mut State<'m>,
    begun: Result<Begun, Stop>,
    line: Option<u32>,
) -> Result<Turn<'m>, NoMemory>
    requires state { StateOf store.old state.old }
    requires begun { BegunOf store.old begun }
    ensures { IfOk result (λ r. BegunMakes store.old state.old left.old line begun store.new state.new left.new r) }
{
    match begun {
        Ok(Begun::Answers(values)) => Ok(give_all(store, state, Values::of_list(values))),
        Ok(Begun::Asks(job, limit)) => {
            replace(alloc, store, left, state, job, limit, Far::new(alloc), line)
        }
        Err(stop) => refuse(alloc, store, left, state, line, stop),
    }
}

/// `gsub(s, pattern, r, n)`, which was called from this line.
pub fn gsub<'m>(
    alloc: Global,
    store: &mut Store,
    left: &mut Left,
    state: &mut State<'m>,
    function: GsubFunction,
    arguments: Values,
    line: Option<u32>,
) -> Result<Turn<'m>, NoMemory>
    requires state { StateOf store.old state.old }
    requires arguments { ValuesOf store.old arguments }
    ensures { IfOk result (λ r. LateMakes store.old state.old left.old store.new state.new left.new
        (libraries.gsub (gsub_form (alphabet_of function) (values_seen store.old.texts arguments) store.old.heap) line (frames_of store.old state.old) (slots_of store.old state.old)) r) }
{
    let list = arguments.into_list();
    let begun = gsub_begin(alloc, store, left, function, list.as_slice());
    let turn = go_from(alloc, store, left, state, begun, line)?;
    Ok(turn)
}
