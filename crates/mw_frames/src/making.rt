//! The four tables of a frame (Scribunto, Frame object): its arguments and their metatable, the frame and its metatable.
ghost use Rattle.std.specs.Prelude.{◌≡◌, ◌+◌, ◌<◌, ◌^◌, ℕ, length, IfOk, OnOk};
ghost use Rattle.lua_home.specs.LuaGraphPut.{filled};
ghost use Rattle.lua_home.specs.LuaMeaningFrames as meaning;
ghost use Rattle.lua_basic.specs.LuaStoreParts.{IsTableOf, IsLater};
ghost use Rattle.mw_frames.specs.Making.{with_pair};

use crate::keys::{fill_args, set_field, set_item};
use lua_basic::{Library, Store, TableId, Value};
use lua_home::fields::{Field, Item, fill};
use mw_frame::{NoMemory, Scene};

/// A table and its metatable.
#[derive(Clone, Copy)]
struct WithMeta {
    table: TableId,
    meta: TableId,
}

/// A new table with a new metatable.
fn new_pair(store: &mut Store) -> Result<WithMeta, NoMemory>
    ensures table { IfOk result (λ p. p.table.at ≡ length store.old.heap.tables) }
    ensures meta { IfOk result (λ p. p.meta.at ≡ length store.old.heap.tables + 1) }
    ensures table_of { IfOk result (λ p. IsTableOf store.new p.table) }
    ensures meta_of { IfOk result (λ p. IsTableOf store.new p.meta) }
    ensures made { OnOk result (store.new.heap ≡ with_pair store.old.heap) }
    ensures later { IsLater store.old store.new }
{
    let table = store.new_table()?;
    let meta = store.new_table()?;
    store.set_meta(table, Value::Table(meta));
    Ok(WithMeta { table, meta })
}

/// The metatable of arguments.
fn fill_args_meta(store: &mut Store, table: TableId) -> Result<(), NoMemory>
    requires { IsTableOf store.old table }
    ensures put { OnOk result (store.new.heap ≡ filled table.at meaning.args_meta store.old.heap) }
    ensures later { IsLater store.old store.new }
{
    set_field(store, table, b"__metatable", Value::Bool(false))?;
    set_field(store, table, b"__index", Value::Builtin(Library::ArgsIndex))?;
    Ok(())
}

/// The frame itself: its arguments and its methods.
fn fill_frame(store: &mut Store, table: TableId, args: TableId) -> Result<(), NoMemory>
    requires table { IsTableOf store.old table }
    requires args { IsTableOf store.old args }
    ensures put { OnOk result (store.new.heap
        ≡ filled table.at (meaning.frame_entries args.at) store.old.heap) }
    ensures later { IsLater store.old store.new }
{
    let fields = [
        Field {
            name: b"args",
            value: Item::Table(args),
        },
        Field {
            name: b"getParent",
            value: Item::Function(Library::FrameGetParent),
        },
        Field {
            name: b"expandTemplate",
            value: Item::Function(Library::FrameExpandTemplate),
        },
        Field {
            name: b"preprocess",
            value: Item::Function(Library::FramePreprocess),
        },
        Field {
            name: b"getArgument",
            value: Item::Function(Library::FrameGetArgument),
        },
        Field {
            name: b"argumentPairs",
            value: Item::Function(Library::FrameArgumentPairs),
        },
        Field {
            name: b"newChild",
            value: Item::Function(Library::FrameNewChild),
        },
        Field {
            name: b"getTitle",
            value: Item::Function(Library::FrameGetTitle),
        },
        Field {
            name: b"extensionTag",
            value: Item::Function(Library::FrameExtensionTag),
        },
    ];
    fill(store, table, &fields)
}

/// The metatable of a frame, which has its number.
fn fill_frame_meta(store: &mut Store, table: TableId, number: usize) -> Result<(), NoMemory>
    requires table { IsTableOf store.old table }
    requires number { number < 2 ^ 63 }
    ensures put { OnOk result (store.new.heap
        ≡ filled table.at (meaning.frame_meta number) store.old.heap) }
    ensures later { IsLater store.old store.new }
{
    set_item(store, table, 1, number as i64)?;
    set_field(store, table, b"__metatable", Value::Bool(false))?;
    Ok(())
}

/// The frame of a scene, which has this number in its run. Its four tables stand behind those that were there, and nothing else is
/// changed.
pub fn make_frame(store: &mut Store, scene: &Scene, number: usize) -> Result<TableId, NoMemory>
    requires { number < 2 ^ 63 }
    ensures at { IfOk result (λ id. id.at ≡ length store.old.heap.tables + 2) }
    ensures of { IfOk result (IsTableOf store.new) }
    ensures made { OnOk result (store.new.heap
        ≡ meaning.make_frame scene.now number store.old.heap) }
    ensures later { IsLater store.old store.new }
{
    let args = new_pair(store)?;
    let frame = new_pair(store)?;
    fill_args(store, args.table, scene.args.as_slice())?;
    fill_args_meta(store, args.meta)?;
    fill_frame(store, frame.table, args.table)?;
    fill_frame_meta(store, frame.meta, number)?;
    Ok(frame.table)
}
