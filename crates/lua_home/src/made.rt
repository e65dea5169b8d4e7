//! The tables of a fresh environment.
ghost use Rattle.std.specs.Prelude.{◌≡◌, ℕ, length, IfOk, OnOk};
ghost use Rattle.lua_graph.specs.Put.{grown, filled};
ghost use Rattle.lua_graph.specs.LuaStoreParts.{IsLater};
ghost use Rattle.lua_home.specs.Entries.{first_globals, middle_globals, last_globals, first_strings, last_strings, mw_fields, title_fields, table_fields, math_fields, first_ustring, last_ustring, first_text, last_text, html_fields, global_fields, string_fields, ustring_fields, text_fields};
ghost use Rattle.lua_home.specs.Made.{with_home, AreAt, AreTablesOf, HomeIsHome};

use crate::fields::{Field, Item, fill};
use lua_graph::{Library, NoMemory, Store, TableId};

/// The tables of a fresh environment: those of the global variables, of the functions for strings, `mw`, `mw.title`, `table`, `math`,
/// `mw.ustring`, `mw.text`, and `mw.html`.
#[derive(Clone, Copy)]
pub struct Tables {
    pub globals: TableId,
    pub strings: TableId,
    pub mw: TableId,
    pub title: TableId,
    pub tables: TableId,
    pub math: TableId,
    pub ustring: TableId,
    pub text: TableId,
    pub html: TableId,
}

/// Nine new tables.
fn new_tables(store: &mut Store) -> Result<Tables, NoMemory>
    ensures at { IfOk result (AreAt (length store.old.heap.tables)) }
    ensures of { IfOk result (AreTablesOf store.new) }
    ensures put { OnOk result (store.new.heap ≡ grown 9 store.old.heap) }
    ensures later { IsLater store.old store.new }
{
    let globals = store.new_table()?;
    let strings = store.new_table()?;
    let mw = store.new_table()?;
    let title = store.new_table()?;
    let tables = store.new_table()?;
    let math = store.new_table()?;
    let ustring = store.new_table()?;
    let text = store.new_table()?;
    let html = store.new_table()?;
    Ok(Tables {
        globals,
        strings,
        mw,
        title,
        tables,
        math,
        ustring,
        text,
        html,
    })
}

/// The first global variables.
fn fill_first(store: &mut Store, tables: &Tables) -> Result<(), NoMemory>
    requires { AreTablesOf store.old tables.now }
    ensures put { OnOk result (store.new.heap
        ≡ filled tables.now.globals.at (first_globals tables.now) store.old.heap) }
    ensures later { IsLater store.old store.new }
{
    let fields = [
        Field {
            name: b"_G",
            value: Item::Table(tables.globals),
        },
        Field {
            name: b"_VERSION",
            value: Item::Text(b"Lua 5.1"),
        },
        Field {
            name: b"assert",
            value: Item::Function(Library::BasicAssert),
        },
        Field {
            name: b"error",
            value: Item::Function(Library::BasicError),
        },
        Field {
            name: b"getmetatable",
            value: Item::Function(Library::BasicGetMetatable),
        },
        Field {
            name: b"setmetatable",
            value: Item::Function(Library::BasicSetMetatable),
        },
        Field {
            name: b"ipairs",
            value: Item::Function(Library::BasicIpairs),
        },
        Field {
            name: b"pairs",
            value: Item::Function(Library::BasicPairs),
        },
    ];
    fill(store, tables.globals, &fields)
}

/// Those behind them.
fn fill_middle(store: &mut Store, tables: &Tables) -> Result<(), NoMemory>
    requires { AreTablesOf store.old tables.now }
    ensures put { OnOk result (store.new.heap
        ≡ filled tables.now.globals.at middle_globals store.old.heap) }
    ensures later { IsLater store.old store.new }
{
    let fields = [
        Field {
            name: b"next",
            value: Item::Function(Library::BasicNext),
        },
        Field {
            name: b"pcall",
            value: Item::Function(Library::BasicPcall),
        },
        Field {
            name: b"xpcall",
            value: Item::Function(Library::BasicXpcall),
        },
        Field {
            name: b"rawequal",
            value: Item::Function(Library::BasicRawEqual),
        },
        Field {
            name: b"rawget",
            value: Item::Function(Library::BasicRawGet),
        },
        Field {
            name: b"rawset",
            value: Item::Function(Library::BasicRawSet),
        },
        Field {
            name: b"select",
            value: Item::Function(Library::BasicSelect),
        },
        Field {
            name: b"tonumber",
            value: Item::Function(Library::BasicToNumber),
        },
    ];
    fill(store, tables.globals, &fields)
}

/// The last of them.
fn fill_last(store: &mut Store, tables: &Tables) -> Result<(), NoMemory>
    requires { AreTablesOf store.old tables.now }
    ensures put { OnOk result (store.new.heap
        ≡ filled tables.now.globals.at (last_globals tables.now) store.old.heap) }
    ensures later { IsLater store.old store.new }
{
    let fields = [
        Field {
            name: b"tostring",
            value: Item::Function(Library::BasicToString),
        },
        Field {
            name: b"type",
            value: Item::Function(Library::BasicType),
        },
        Field {
            name: b"unpack",
            value: Item::Function(Library::BasicUnpack),
        },
        Field {
            name: b"require",
            value: Item::Function(Library::BasicRequire),
        },
        Field {
            name: b"string",
            value: Item::Table(tables.strings),
        },
        Field {
            name: b"table",
            value: Item::Table(tables.tables),
        },
        Field {
            name: b"math",
            value: Item::Table(tables.math),
        },
        Field {
            name: b"mw",
            value: Item::Table(tables.mw),
        },
    ];
    fill(store, tables.globals, &fields)
}

/// The first fields of `string`.
fn fill_first_strings(store: &mut Store, tables: &Tables) -> Result<(), NoMemory>
    requires { AreTablesOf store.old tables.now }
    ensures put { OnOk result (store.new.heap
        ≡ filled tables.now.strings.at first_strings store.old.heap) }
    ensures later { IsLater store.old store.new }
{
    let fields = [
        Field {
            name: b"byte",
            value: Item::Function(Library::StringByte),
        },
        Field {
            name: b"char",
            value: Item::Function(Library::StringChar),
        },
        Field {
            name: b"find",
            value: Item::Function(Library::StringFind),
        },
        Field {
            name: b"match",
            value: Item::Function(Library::StringMatch),
        },
        Field {
            name: b"gmatch",
            value: Item::Function(Library::StringGmatch),
        },
        Field {
            name: b"gsub",
            value: Item::Function(Library::StringGsub),
        },
        Field {
            name: b"format",
            value: Item::Function(Library::StringFormat),
        },
        Field {
            name: b"len",
            value: Item::Function(Library::StringLen),
        },
    ];
    fill(store, tables.strings, &fields)
}

/// Those behind them.
fn fill_last_strings(store: &mut Store, tables: &Tables) -> Result<(), NoMemory>
    requires { AreTablesOf store.old tables.now }
    ensures put { OnOk result (store.new.heap
        ≡ filled tables.now.strings.at last_strings store.old.heap) }
    ensures later { IsLater store.old store.new }
{
    let fields = [
        Field {
            name: b"lower",
            value: Item::Function(Library::StringLower),
        },
        Field {
            name: b"upper",
            value: Item::Function(Library::StringUpper),
        },
        Field {
            name: b"rep",
            value: Item::Function(Library::StringRep),
        },
        Field {
            name: b"reverse",
            value: Item::Function(Library::StringReverse),
        },
        Field {
            name: b"sub",
            value: Item::Function(Library::StringSub),
        },
    ];
    fill(store, tables.strings, &fields)
}

/// The fields of `mw`.
fn fill_mw(store: &mut Store, tables: &Tables) -> Result<(), NoMemory>
    requires { AreTablesOf store.old tables.now }
    ensures put { OnOk result (store.new.heap
        ≡ filled tables.now.mw.at (mw_fields tables.now) store.old.heap) }
    ensures later { IsLater store.old store.new }
{
    let fields = [
        Field {
            name: b"clone",
            value: Item::Function(Library::MwClone),
        },
        Field {
            name: b"log",
            value: Item::Function(Library::MwLog),
        },
        Field {
            name: b"title",
            value: Item::Table(tables.title),
        },
        Field {
            name: b"loadData",
            value: Item::Function(Library::MwLoadData),
        },
        Field {
            name: b"getCurrentFrame",
            value: Item::Function(Library::MwGetCurrentFrame),
        },
        Field {
            name: b"ustring",
            value: Item::Table(tables.ustring),
        },
        Field {
            name: b"text",
            value: Item::Table(tables.text),
        },
        Field {
            name: b"html",
            value: Item::Table(tables.html),
        },
    ];
    fill(store, tables.mw, &fields)
}

/// The field of `mw.title`.
fn fill_title(store: &mut Store, tables: &Tables) -> Result<(), NoMemory>
    requires { AreTablesOf store.old tables.now }
    ensures put { OnOk result (store.new.heap
        ≡ filled tables.now.title.at title_fields store.old.heap) }
    ensures later { IsLater store.old store.new }
{
    let fields = [Field {
        name: b"getCurrentTitle",
        value: Item::Function(Library::MwGetCurrentTitle),
    }];
    fill(store, tables.title, &fields)
}

/// The fields of `table`.
fn fill_tables(store: &mut Store, tables: &Tables) -> Result<(), NoMemory>
    requires { AreTablesOf store.old tables.now }
    ensures put { OnOk result (store.new.heap
        ≡ filled tables.now.tables.at table_fields store.old.heap) }
    ensures later { IsLater store.old store.new }
{
    let fields = [
        Field {
            name: b"concat",
            value: Item::Function(Library::TableConcat),
        },
        Field {
            name: b"insert",
            value: Item::Function(Library::TableInsert),
        },
        Field {
            name: b"maxn",
            value: Item::Function(Library::TableMaxn),
        },
        Field {
            name: b"remove",
            value: Item::Function(Library::TableRemove),
        },
        Field {
            name: b"sort",
            value: Item::Function(Library::TableSort),
        },
    ];
    fill(store, tables.tables, &fields)
}

/// The fields of `math`.
fn fill_math(store: &mut Store, tables: &Tables) -> Result<(), NoMemory>
    requires { AreTablesOf store.old tables.now }
    ensures put { OnOk result (store.new.heap
        ≡ filled tables.now.math.at math_fields store.old.heap) }
    ensures later { IsLater store.old store.new }
{
    let fields = [
        Field {
            name: b"abs",
            value: Item::Function(Library::MathAbs),
        },
        Field {
            name: b"ceil",
            value: Item::Function(Library::MathCeil),
        },
        Field {
            name: b"floor",
            value: Item::Function(Library::MathFloor),
        },
        Field {
            name: b"fmod",
            value: Item::Function(Library::MathFmod),
        },
        Field {
            name: b"max",
            value: Item::Function(Library::MathMax),
        },
        Field {
            name: b"min",
            value: Item::Function(Library::MathMin),
        },
        Field {
            name: b"pow",
            value: Item::Function(Library::MathPow),
        },
    ];
    fill(store, tables.math, &fields)
}

/// The first fields of `mw.ustring`.
fn fill_first_ustring(store: &mut Store, tables: &Tables) -> Result<(), NoMemory>
    requires { AreTablesOf store.old tables.now }
    ensures put { OnOk result (store.new.heap
        ≡ filled tables.now.ustring.at first_ustring store.old.heap) }
    ensures later { IsLater store.old store.new }
{
    let fields = [
        Field {
            name: b"char",
            value: Item::Function(Library::UstringChar),
        },
        Field {
            name: b"codepoint",
            value: Item::Function(Library::UstringCodepoint),
        },
        Field {
            name: b"gcodepoint",
            value: Item::Function(Library::UstringGcodepoint),
        },
        Field {
            name: b"byteoffset",
            value: Item::Function(Library::UstringByteOffset),
        },
        Field {
            name: b"find",
            value: Item::Function(Library::UstringFind),
        },
        Field {
            name: b"match",
            value: Item::Function(Library::UstringMatch),
        },
        Field {
            name: b"gmatch",
            value: Item::Function(Library::UstringGmatch),
        },
        Field {
            name: b"gsub",
            value: Item::Function(Library::UstringGsub),
        },
    ];
    fill(store, tables.ustring, &fields)
}

/// Those behind them.
fn fill_last_ustring(store: &mut Store, tables: &Tables) -> Result<(), NoMemory>
    requires { AreTablesOf store.old tables.now }
    ensures put { OnOk result (store.new.heap
        ≡ filled tables.now.ustring.at last_ustring store.old.heap) }
    ensures later { IsLater store.old store.new }
{
    let fields = [
        Field {
            name: b"len",
            value: Item::Function(Library::UstringLen),
        },
        Field {
            name: b"sub",
            value: Item::Function(Library::UstringSub),
        },
        Field {
            name: b"isutf8",
            value: Item::Function(Library::UstringIsUtf8),
        },
        Field {
            name: b"toNFC",
            value: Item::Function(Library::UstringToNfc),
        },
        Field {
            name: b"toNFD",
            value: Item::Function(Library::UstringToNfd),
        },
        Field {
            name: b"toNFKC",
            value: Item::Function(Library::UstringToNfkc),
        },
        Field {
            name: b"toNFKD",
            value: Item::Function(Library::UstringToNfkd),
        },
    ];
    fill(store, tables.ustring, &fields)
}

/// The first fields of `mw.text`.
fn fill_first_text(store: &mut Store, tables: &Tables) -> Result<(), NoMemory>
    requires { AreTablesOf store.old tables.now }
    ensures put { OnOk result (store.new.heap
        ≡ filled tables.now.text.at first_text store.old.heap) }
    ensures later { IsLater store.old store.new }
{
    let fields = [
        Field {
            name: b"trim",
            value: Item::Function(Library::TextTrim),
        },
        Field {
            name: b"split",
            value: Item::Function(Library::TextSplit),
        },
        Field {
            name: b"gsplit",
            value: Item::Function(Library::TextGsplit),
        },
        Field {
            name: b"encode",
            value: Item::Function(Library::TextEncode),
        },
        Field {
            name: b"decode",
            value: Item::Function(Library::TextDecode),
        },
    ];
    fill(store, tables.text, &fields)
}

/// Those behind them.
fn fill_last_text(store: &mut Store, tables: &Tables) -> Result<(), NoMemory>
    requires { AreTablesOf store.old tables.now }
    ensures put { OnOk result (store.new.heap
        ≡ filled tables.now.text.at last_text store.old.heap) }
    ensures later { IsLater store.old store.new }
{
    let fields = [
        Field {
            name: b"listToText",
            value: Item::Function(Library::TextListToText),
        },
        Field {
            name: b"nowiki",
            value: Item::Function(Library::TextNowiki),
        },
        Field {
            name: b"tag",
            value: Item::Function(Library::TextTag),
        },
        Field {
            name: b"truncate",
            value: Item::Function(Library::TextTruncate),
        },
    ];
    fill(store, tables.text, &fields)
}

/// The field of `mw.html`.
fn fill_html(store: &mut Store, tables: &Tables) -> Result<(), NoMemory>
    requires { AreTablesOf store.old tables.now }
    ensures put { OnOk result (store.new.heap
        ≡ filled tables.now.html.at html_fields store.old.heap) }
    ensures later { IsLater store.old store.new }
{
    let fields = [Field {
        name: b"create",
        value: Item::Function(Library::HtmlCreate),
    }];
    fill(store, tables.html, &fields)
}

/// The global variables.
fn fill_globals(store: &mut Store, tables: &Tables) -> Result<(), NoMemory>
    requires { AreTablesOf store.old tables.now }
    ensures put { OnOk result (store.new.heap
        ≡ filled tables.now.globals.at (global_fields tables.now) store.old.heap) }
    ensures later { IsLater store.old store.new }
{
    fill_first(store, tables)?;
    fill_middle(store, tables)?;
    fill_last(store, tables)?;
    Ok(())
}

/// The fields of `string`.
fn fill_strings(store: &mut Store, tables: &Tables) -> Result<(), NoMemory>
    requires { AreTablesOf store.old tables.now }
    ensures put { OnOk result (store.new.heap
        ≡ filled tables.now.strings.at string_fields store.old.heap) }
    ensures later { IsLater store.old store.new }
{
    fill_first_strings(store, tables)?;
    fill_last_strings(store, tables)?;
    Ok(())
}

/// The fields of `mw.ustring`.
fn fill_ustring(store: &mut Store, tables: &Tables) -> Result<(), NoMemory>
    requires { AreTablesOf store.old tables.now }
    ensures put { OnOk result (store.new.heap
        ≡ filled tables.now.ustring.at ustring_fields store.old.heap) }
    ensures later { IsLater store.old store.new }
{
    fill_first_ustring(store, tables)?;
    fill_last_ustring(store, tables)?;
    Ok(())
}

/// The fields of `mw.text`.
fn fill_text(store: &mut Store, tables: &Tables) -> Result<(), NoMemory>
    requires { AreTablesOf store.old tables.now }
    ensures put { OnOk result (store.new.heap
        ≡ filled tables.now.text.at text_fields store.old.heap) }
    ensures later { IsLater store.old store.new }
{
    fill_first_text(store, tables)?;
    fill_last_text(store, tables)?;
    Ok(())
}

/// A fresh environment, in new tables (manual 5; Scribunto, "Lua environment"). Nothing that was there is changed.
pub fn fresh(store: &mut Store) -> Result<Tables, NoMemory>
    ensures at { IfOk result (AreAt (length store.old.heap.tables)) }
    ensures of { IfOk result (AreTablesOf store.new) }
    ensures made { OnOk result (store.new.heap ≡ with_home store.old.heap) }
    ensures later { IsLater store.old store.new }
{
    let tables = new_tables(store)?;
    fill_globals(store, &tables)?;
    fill_strings(store, &tables)?;
    fill_mw(store, &tables)?;
    fill_title(store, &tables)?;
    fill_tables(store, &tables)?;
    fill_math(store, &tables)?;
    fill_ustring(store, &tables)?;
    fill_text(store, &tables)?;
    fill_html(store, &tables)?;
    Ok(tables)
}

/// Alone in a heap these tables are the heap with which a run begins.
pub fn home_is_home()
    ensures { HomeIsHome }
{}
