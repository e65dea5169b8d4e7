//! Table constructors (manual 2.5.7): a table that is there gets its entries in order, without handlers.
ghost use Rattle.std.specs.Prelude.{◌≡◌, ◌≢◌, ◌∷◌, ◌+◌, [], ℕ, List, pos, Some, IfOk, MatchOption};
ghost use Rattle.page_run.specs.WkBaseDeclaredLeftLeft.{Left as Allowance};
ghost use Rattle.lua_code.specs.Seen.{entries_seen};
ghost use Rattle.lua_code.specs.LuaHeapValue as kind;
ghost use Rattle.lua_code.specs.LuaSlotsCode.{CWorld};
ghost use Rattle.lua_code.specs.LuaSlotsExpressions as machine;
ghost use Rattle.lua_code.specs.LuaSlotsIndex.{set_entry as sets_entry};
ghost use Rattle.lua_code.specs.LuaSlotsMoves.{goes};
ghost use Rattle.lua_operators.specs.LuaSlotsPoints.{Now};
ghost use Rattle.lua_operators.specs.LuaSlotsSlots.{Slots};
ghost use Rattle.lua_operators.specs.LuaStoreParts.{IsOf, IsTableOf};
ghost use Rattle.lua_operators.specs.LuaStoreSeen.{StoreView, seen};
ghost use Rattle.lua_state.specs.LuaStackDeclaredValuesGiven.{Given as GivenValues};
ghost use Rattle.lua_state.specs.LuaStackLists.{first_stored, given_values};
ghost use Rattle.lua_operators.specs.LuaStackOf.{InConstructorOf, GivenOf, ValuesOf, FramesOf, FocusOf};
ghost use Rattle.lua_operators.specs.LuaStackSeen.{in_constructor_seen, given_seen, values_seen, frames_seen, focus_seen};
ghost use Rattle.lua_state.specs.Makes.{Makes};
ghost use Rattle.lua_state.specs.Of.{StateOf};
ghost use Rattle.lua_state.specs.Seen.{frames_of, slots_of};

use crate::exits::{give, wait};
use lua_code::{Entry, NoMemory};
use lua_operators::{Focus, Frame, Frames, InConstructor, Left, Store, Value, set_entry};
use lua_state::{Given, State, TableId, Turn, Values, finish_paid};
use std::alloc::Global;

/// The first of some entries, and those behind it.
#[derive(Clone, Copy)]
struct Front<'m> {
    first: &'m Entry,
    rest: &'m [Entry],
}

fn front_of<'m>(entries: &'m [Entry]) -> Option<Front<'m>>
    ensures { MatchOption result (entries.now ≡ []) (λ f. entries.now ≡ f.first.now ∷ f.rest.now) }
{
    match entries {
        [first, rest @ ..] => Some(Front { first, rest }),
        [] => None,
    }
}

/// The entries that are left: the first of them is evaluated, or the table is the value.
#[tactic(auto, using(crate::proofs::Codes::codes))]
pub fn fields<'m>(
    frames: &mut Frames<'m>,
    table: TableId,
    place: usize,
    entries: &'m [Entry],
    line: u32,
) -> Result<Focus<'m>, NoMemory>
    ensures of { IfOk result (λ f. (s : StoreView) → IsTableOf s table → FramesOf s frames.old → FocusOf s f × FramesOf s frames.new) }
    ensures move_ { IfOk result (λ f. (s : StoreView) (z : Slots)
        → machine.fields table.at place (entries_seen entries.now) line (frames_seen s.texts frames.old) z ≡ Now (focus_seen s f (frames_seen s.texts frames.new)) z) }
{
    match front_of(entries) {
        None => Ok(Focus::Gives(Given::One(Value::Table(table)))),
        Some(front) => match front.first {
            Entry::Item(e) => {
                let frame = InConstructor::ItemNow(table, place, front.rest, line);
                frames.push(Frame::Constructor(frame))?;
                Ok(Focus::Evaluates(e))
            }
            Entry::Pair(key, e) => {
                let frame = InConstructor::PairNext(table, place, e, front.rest, line);
                frames.push(Frame::Constructor(frame))?;
                Ok(Focus::Evaluates(key))
            }
        },
    }
}

/// The key of an item. So many items do not fit in memory that their number doesn't fit a key.
fn key_at(place: usize) -> Result<Value, NoMemory>
    ensures of { IfOk result (λ v. (s : StoreView) → IsOf s v) }
    ensures value { IfOk result (λ v. (texts : List (List ℕ)) → seen texts v ≡ kind.Number (pos place)) }
{
    match i64::try_from(place) {
        Ok(number) => Ok(Value::Number(number)),
        Err(_) => Err(NoMemory),
    }
}

/// The place behind this one.
fn behind(place: usize) -> Result<usize, NoMemory>
    ensures { IfOk result (λ next. next ≡ place + 1) }
{
    match place.checked_add(1) {
        Some(next) => Ok(next),
        None => Err(NoMemory),
    }
}

/// An entry is set, and this frame waits for it.
fn set<'m>(
    alloc: Global,
    store: &mut Store,
    left: &mut Left,
    state: &mut State<'m>,
    frame: InConstructor<'m>,
    table: TableId,
    entry: (Value, Value),
    line: u32,
) -> Result<Turn<'m>, NoMemory>
    requires state { StateOf store.old state.old }
    requires frame { InConstructorOf store.old frame }
    requires table { IsTableOf store.old table }
    requires key { IsOf store.old entry.0 }
    requires value { IsOf store.old entry.1 }
    ensures { IfOk result (λ r. Makes store.old state.old left.old store.new state.new left.new
        (sets_entry table.at (seen store.old.texts entry.0) (seen store.old.texts entry.1) (Some line) (in_constructor_seen store.old.texts frame.entry ∷ frames_of store.old state.old) (slots_of store.old state.old)) r) }
{
    state.frames.push(Frame::Constructor(frame))?;
    let (key, value) = entry;
    let paid = set_entry(alloc, store, left, table, key, value, Some(line))?;
    let turn = finish_paid(alloc, store, left, state, paid)?;
    Ok(turn)
}

/// The first of these values is set at this place, and those behind it wait.
fn set_first<'m>(
    alloc: Global,
    store: &mut Store,
    left: &mut Left,
    state: &mut State<'m>,
    table: TableId,
    place: usize,
    values: Values,
    line: u32,
) -> Result<Turn<'m>, NoMemory>
    requires state { StateOf store.old state.old }
    requires table { IsTableOf store.old table }
    requires values { ValuesOf store.old values }
    requires some { values ≢ [] }
    ensures { IfOk result (λ r. Makes store.old state.old left.old store.new state.new left.new
        (machine.items table.at place (values_seen store.old.texts values) line (frames_of store.old state.old) (slots_of store.old state.old)) r) }
{
    let mut values = values;
    let value = values.take_first();
    let key = key_at(place)?;
    let next = behind(place)?;
    let frame = InConstructor::ItemsNext(table, next, values, line);
    set(alloc, store, left, state, frame, table, (key, value), line)
}

/// The values that the last item has left.
fn items<'m>(
    alloc: Global,
    store: &mut Store,
    left: &mut Left,
    state: &mut State<'m>,
    table: TableId,
    place: usize,
    values: Values,
    line: u32,
) -> Result<Turn<'m>, NoMemory>
    requires state { StateOf store.old state.old }
    requires table { IsTableOf store.old table }
    requires values { ValuesOf store.old values }
    ensures { IfOk result (λ r. Makes store.old state.old left.old store.new state.new left.new
        (machine.items table.at place (values_seen store.old.texts values) line (frames_of store.old state.old) (slots_of store.old state.old)) r) }
{
    if values.len() == 0 {
        return Ok(give(store, state, Value::Table(table)));
    }
    set_first(alloc, store, left, state, table, place, values, line)
}

/// The first value of an item before other entries is set, and the entries wait.
fn set_item<'m>(
    alloc: Global,
    store: &mut Store,
    left: &mut Left,
    state: &mut State<'m>,
    place: (TableId, usize),
    entries: &'m [Entry],
    front: Front<'m>,
    first: Value,
    line: u32,
) -> Result<Turn<'m>, NoMemory>
    requires state { StateOf store.old state.old }
    requires table { IsTableOf store.old place.0 }
    requires front { entries.now ≡ front.first.now ∷ front.rest.now }
    requires first { IsOf store.old first }
    ensures { (g : GivenValues) → first ≡ first_stored (given_values g) → IfOk result (λ r. Makes store.old state.old left.old store.new state.new left.new
        (machine.item place.0.at place.1 (entries_seen entries.now) (given_seen store.old.texts g) line (frames_of store.old state.old) (slots_of store.old state.old)) r) }
{
    let (table, at) = place;
    let key = key_at(at)?;
    let next = behind(at)?;
    let frame = InConstructor::FieldsNext(table, next, entries, line);
    set(alloc, store, left, state, frame, table, (key, first), line)
}

/// An item is evaluated: all its values where it is the last entry, else the first of them.
fn item<'m>(
    alloc: Global,
    store: &mut Store,
    left: &mut Left,
    state: &mut State<'m>,
    place: (TableId, usize),
    entries: &'m [Entry],
    values: Given,
    line: u32,
) -> Result<Turn<'m>, NoMemory>
    requires state { StateOf store.old state.old }
    requires table { IsTableOf store.old place.0 }
    requires values { GivenOf store.old values }
    ensures { IfOk result (λ r. Makes store.old state.old left.old store.new state.new left.new
        (machine.item place.0.at place.1 (entries_seen entries.now) (given_seen store.old.texts values) line (frames_of store.old state.old) (slots_of store.old state.old)) r) }
{
    match front_of(entries) {
        None => {
            let (table, at) = place;
            let values = values.into_values(alloc)?;
            items(alloc, store, left, state, table, at, values, line)
        }
        Some(front) => {
            let first = values.first();
            set_item(
                alloc, store, left, state, place, entries, front, first, line,
            )
        }
    }
}

/// The next of some entries.
fn next_field<'m>(
    store: &Store,
    state: &mut State<'m>,
    table: TableId,
    place: usize,
    entries: &'m [Entry],
    line: u32,
) -> Result<Turn<'m>, NoMemory>
    requires state { StateOf store.now state.old }
    requires table { IsTableOf store.now table }
    ensures { (l : Allowance) → IfOk result (λ r. Makes store.now state.old l store.now state.new l
        (machine.fields table.at place (entries_seen entries.now) line (frames_of store.now state.old) (slots_of store.now state.old)) r) }
{
    let focus = fields(&mut state.frames, table, place, entries, line)?;
    Ok(Turn::On(focus))
}

/// What a frame in a constructor does with values, of which this is the first.
fn give_first<'m>(
    alloc: Global,
    store: &mut Store,
    left: &mut Left,
    state: &mut State<'m>,
    frame: InConstructor<'m>,
    first: Value,
    values: Given,
) -> Result<Turn<'m>, NoMemory>
    requires state { StateOf store.old state.old }
    requires frame { InConstructorOf store.old frame }
    requires first { IsOf store.old first }
    requires values { GivenOf store.old values }
    requires same { first ≡ first_stored (given_values values) }
    ensures { (world : CWorld) → IfOk result (λ r. Makes store.old state.old left.old store.new state.new left.new
        (goes world (in_constructor_seen store.old.texts frame.entry) (given_seen store.old.texts values) (frames_of store.old state.old) (slots_of store.old state.old)) r) }
{
    match frame {
        InConstructor::ItemNow(table, place, entries, line) => {
            item(
                alloc,
                store,
                left,
                state,
                (table, place),
                entries,
                values,
                line,
            )
        }
        InConstructor::PairNext(table, place, e, entries, line) => {
            let frame = InConstructor::PairNow(table, place, first, entries, line);
            wait(store, state, Frame::Constructor(frame), Focus::Evaluates(e))
        }
        InConstructor::PairNow(table, place, key, entries, line) => {
            let frame = InConstructor::FieldsNext(table, place, entries, line);
            set(alloc, store, left, state, frame, table, (key, first), line)
        }
        InConstructor::FieldsNext(table, place, entries, line) => {
            next_field(store, state, table, place, entries, line)
        }
        InConstructor::ItemsNext(table, place, others, line) => {
            items(alloc, store, left, state, table, place, others, line)
        }
    }
}

/// What a frame in a constructor does with values.
pub fn give_constructor<'m>(
    alloc: Global,
    store: &mut Store,
    left: &mut Left,
    state: &mut State<'m>,
    frame: InConstructor<'m>,
    values: Given,
) -> Result<Turn<'m>, NoMemory>
    requires state { StateOf store.old state.old }
    requires frame { InConstructorOf store.old frame }
    requires values { GivenOf store.old values }
    ensures { IfOk result (λ r. (world : CWorld) → Makes store.old state.old left.old store.new state.new left.new
        (goes world (in_constructor_seen store.old.texts frame.entry) (given_seen store.old.texts values) (frames_of store.old state.old) (slots_of store.old state.old)) r) }
{
    let first = values.first();
    give_first(alloc, store, left, state, frame, first, values)
}
