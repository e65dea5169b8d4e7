//! Methods and entries that are found at once: in their object, or in the table that its metatable names (manual 2.3 and 2.5.8).
ghost use Rattle.std.specs.Prelude.{◌≡◌, ◌∷◌, [], ℕ, true, List as Items, Option as MayBe, IfOk, IfSome};
ghost use Rattle.lua_loops.specs.PageRunOutcome.{Goes};
ghost use Rattle.lua_code.specs.LuaHeapHeap.{table_at};
ghost use Rattle.lua_code.specs.LuaHeapTable.{get};
ghost use Rattle.lua_code.specs.LuaHeapValue.{is_nil as is_nil_value};
ghost use Rattle.lua_code.specs.LuaSlotsIndex.{index, index_table};
ghost use Rattle.lua_operators.specs.LuaSlotsPoints.{Gives, SFrame};
ghost use Rattle.lua_operators.specs.LuaSlotsSlots.{Slots};
ghost use Rattle.lua_operators.specs.LuaStackDeclaredFrameFrameTheVariants as frame_kind;
ghost use Rattle.lua_operators.specs.LuaStackDeclaredFrameInExpressionTheVariants as in_expression;
ghost use Rattle.lua_operators.specs.LuaStackOf.{EnvironmentOf};
ghost use Rattle.lua_loops.specs.LuaStateOf.{StateOf};
ghost use Rattle.lua_loops.specs.LuaStateSeen.{frames_of};
ghost use Rattle.lua_operators.specs.LuaStoreParts.{IsOf, IsTableOf};
ghost use Rattle.lua_operators.specs.LuaStoreSeen.{seen};
ghost use Rattle.lua_strides.specs.Next.{focus_of};
ghost use Rattle.lua_turns.specs.Methods.{GivesBehind, PaysLink};
ghost use Rattle.lua_turns.specs.Rows.{Follows, IsNewest, MayFollow};

use crate::at_hand::next_of;
use crate::listing::list;
use crate::waiting::{drop_newest, swap_newest};
use lua_code::{Expression, List, NoMemory};
use lua_loops::{State, Steps, Values};
use lua_operators::{Environment, Frame, InExpression, Left, Store, TextId, Value, is_nil};
use lua_strides::operators::{entry, indexed};
use lua_strides::{Next, TableId, handler};
use std::alloc::Global;
use std::sync::ledger::Ledger;

/// A method that is found, and whether it is behind a link.
#[derive(Clone, Copy)]
pub struct Method {
    pub value: Value,
    pub linked: bool,
}

/// A method of what has no such entry itself: that of the table that its metatable names.
fn behind_link(store: &Store, env: &Environment, table: TableId, key: Value) -> Option<Method>
    requires table { IsTableOf store.now table }
    requires key { IsOf store.now key }
    requires env { EnvironmentOf store.now env.now }
    ensures of { IfSome result (λ r. IsOf store.now r.value) }
    ensures found { (line : MayBe ℕ) (fs : Items SFrame) (s : Slots) → s.heap ≡ store.now.heap → is_nil_value (get (table_at store.now.heap table.at).entries (seen store.now.texts key)) ≡ true → IfSome result (λ r. GivesBehind r.linked (index_table table.at (seen store.now.texts key) line fs s) (seen store.now.texts r.value) fs s) }
{
    match handler(store, Value::Table(table), env.index) {
        Value::Table(behind) => match entry(store, env, behind, key) {
            Some(value) => Some(Method {
                value,
                linked: true,
            }),
            None => None,
        },
        _ => None,
    }
}

/// A method of a table.
fn method_in(store: &Store, env: &Environment, table: TableId, key: Value) -> Option<Method>
    requires table { IsTableOf store.now table }
    requires key { IsOf store.now key }
    requires env { EnvironmentOf store.now env.now }
    ensures of { IfSome result (λ r. IsOf store.now r.value) }
    ensures found { (line : MayBe ℕ) (fs : Items SFrame) (s : Slots) → s.heap ≡ store.now.heap → IfSome result (λ r. GivesBehind r.linked (index_table table.at (seen store.now.texts key) line fs s) (seen store.now.texts r.value) fs s) }
{
    let value = store.get(table, key);
    if is_nil(value) {
        return behind_link(store, env, table, key);
    }
    Some(Method {
        value,
        linked: false,
    })
}

/// A method of a table or a text.
fn method_of(store: &Store, env: &Environment, object: Value, key: Value) -> Option<Method>
    requires object { IsOf store.now object }
    requires key { IsOf store.now key }
    requires env { EnvironmentOf store.now env.now }
    ensures of { IfSome result (λ r. IsOf store.now r.value) }
    ensures found { (line : MayBe ℕ) (fs : Items SFrame) (s : Slots) → s.heap ≡ store.now.heap → s.strings ≡ env.now.strings.at → IfSome result (λ r. GivesBehind r.linked (index (seen store.now.texts object) (seen store.now.texts key) line fs s) (seen store.now.texts r.value) fs s) }
{
    match object {
        Value::Table(table) => method_in(store, env, table, key),
        Value::Text(_) => method_in(store, env, env.strings, key),
        _ => None,
    }
}

/// An entry of a table, nil where there is none and nobody is asked; else what `method_of` finds.
fn entry_of(store: &Store, env: &Environment, of: Value, key: Value) -> Option<Method>
    requires object { IsOf store.now of }
    requires key { IsOf store.now key }
    requires env { EnvironmentOf store.now env.now }
    ensures of { IfSome result (λ r. IsOf store.now r.value) }
    ensures found { (line : MayBe ℕ) (fs : Items SFrame) (s : Slots) → s.heap ≡ store.now.heap → s.strings ≡ env.now.strings.at → IfSome result (λ r. GivesBehind r.linked (index (seen store.now.texts of) (seen store.now.texts key) line fs s) (seen store.now.texts r.value) fs s) }
{
    match indexed(store, env, of, key) {
        Some(value) => Some(Method {
            value,
            linked: false,
        }),
        None => method_of(store, env, of, key),
    }
}

/// The step of a link is taken. Where none is left, the answer is false and nothing changes.
fn pay_link(left: &mut Left, linked: bool) -> bool
    ensures { PaysLink linked left.old left.new result }
{
    if !linked {
        return true;
    }
    if left.steps == 0 {
        return false;
    }
    left.steps -= 1;
    true
}

/// The object of a method has its value: the method is found at once, and its arguments are next.
pub fn take_object<'m, L: Ledger>(
    alloc: Global,
    store: &mut Store,
    left: &mut Left,
    state: &mut State<'m>,
    name: TextId,
    arguments: &'m List<Expression>,
    line: u32,
    object: Value,
    turns: &mut Steps<L>,
) -> Result<Option<Next<'m>>, NoMemory>
    requires state { StateOf store.old state.old }
    requires newest { IsNewest state.old.frames (frame_kind.Expression (in_expression.MethodNext name arguments line)) }
    requires object { IsOf store.old object }
    ensures { IfOk result (MayFollow store.old state.old (Gives (Goes (seen store.old.texts object ∷ [])) (frames_of store.old state.old)) left.old turns.old store.new state.new left.new turns.new) }
{
    match method_of(store, &state.env, object, Value::Text(name)) {
        Some(method) => {
            if !pay_link(left, method.linked) {
                return Ok(None);
            }
            let mut before = Values::new(alloc);
            before.add(object)?;
            let frame = InExpression::CallNow(method.value, line);
            swap_newest(&mut state.frames, Frame::Expression(frame));
            list(
                alloc,
                store,
                left,
                state,
                arguments.as_slice(),
                before,
                turns,
            )
        }
        None => Ok(None),
    }
}

/// The object of an index has its value: its key is next.
pub fn take_of<'m, L: Ledger>(
    store: &Store,
    left: &mut Left,
    state: &mut State<'m>,
    key: &'m Expression,
    line: u32,
    of: Value,
    turns: &mut Steps<L>,
) -> Next<'m>
    requires state { StateOf store.now state.old }
    requires newest { IsNewest state.old.frames (frame_kind.Expression (in_expression.KeyNext key line)) }
    requires of { IsOf store.now of }
    ensures { Follows store.now state.old (Gives (Goes (seen store.now.texts of ∷ [])) (frames_of store.now state.old)) left.old turns.old store.now state.new left.new turns.new (focus_of result) }
{
    let frame = InExpression::IndexNow(of, line);
    swap_newest(&mut state.frames, Frame::Expression(frame));
    next_of(store, left, state, key, turns)
}

/// The key of an index has its value: the entry is found at once.
pub fn take_key<'m>(
    store: &Store,
    left: &mut Left,
    state: &mut State<'m>,
    of: Value,
    line: u32,
    key: Value,
) -> Option<Next<'m>>
    requires state { StateOf store.now state.old }
    requires newest { IsNewest state.old.frames (frame_kind.Expression (in_expression.IndexNow of line)) }
    requires key { IsOf store.now key }
    ensures { (k : ℕ) → MayFollow store.now state.old (Gives (Goes (seen store.now.texts key ∷ [])) (frames_of store.now state.old)) left.old k store.now state.new left.new k result }
{
    match entry_of(store, &state.env, of, key) {
        Some(entry) => {
            if !pay_link(left, entry.linked) {
                return None;
            }
            drop_newest(&mut state.frames);
            Some(Next::Gives(entry.value))
        }
        None => None,
    }
}
