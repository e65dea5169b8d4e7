//! A title with arguments, as `expandTemplate` and `newChild` are given them (Scribunto, Frame object).
ghost use Rattle.std.specs.Prelude.{◌≡◌, List, ℕ, Err, IfOk, IfSome, OnOk, MatchOption};
ghost use Rattle.std.specs.Option.{option_map};
ghost use Rattle.mw_frame_texts.specs.LuaHeapHeap.{Heap};
ghost use Rattle.mw_frame_texts.specs.LuaHeapProc.{Proc};
ghost use Rattle.mw_frame_texts.specs.LuaMeaningArguments.{fails, passed};
ghost use Rattle.mw_frame_texts.specs.LuaMeaningFrameMethods as meaning;
ghost use Rattle.mw_frame_texts.specs.LuaMeaningMessages.{bad_template_arguments, invalid_title};
ghost use Rattle.mw_frame_texts.specs.LuaStoreSeen.{StoreView, seen};
ghost use Rattle.mw_frame_texts.specs.LuaStoreParts.{IsOf, IsTableOf, IsLater};
ghost use Rattle.mw_frame_texts.specs.LuaBasicArguments.{text_bytes};
ghost use Rattle.mw_frame_texts.specs.LuaBasicSeen.{values_seen, AllOf, Stops, StopOf};
ghost use Rattle.mw_frame_texts.specs.MwFramesCosts.{MayPay};
ghost use Rattle.mw_frame_texts.specs.MwFramesReading.{found_args};
ghost use Rattle.mw_frame_texts.specs.MwFramesScenes.{ScenesOf};
ghost use Rattle.mw_frame_calls.specs.Parts.{IsRequest, entries_in, found_entries, found_optional, title_found, IfFound, TitleReadOf};

use crate::finding::table_in;
use mw_frame::{List, Namespace, NoMemory, Title, TitleFault};
use mw_frame_texts::{
    ArgText, Left, Scenes, Stop, Store, TableId, TextId, TextIn, Value, fail, is_nil, pay_passed,
    read_args, text_in,
};
use std::alloc::Global;

/// The fields of a table that is given.
#[derive(Clone, Copy)]
pub struct Request {
    pub title: Value,
    pub args: Value,
}

/// The fields of the table that is given, if it is one.
pub fn a_request(store: &Store, scenes: &Scenes, given: &[Value]) -> Option<Request>
    requires given { AllOf store.now given.now }
    requires scenes { ScenesOf store.now scenes.now }
    ensures found { MatchOption result (meaning.a_request (values_seen store.now.texts given.now) ≡ Err bad_template_arguments) (IsRequest store.now (values_seen store.now.texts given.now)) }
    ensures of { IfSome result (λ r. IsOf store.now r.title × IsOf store.now r.args) }
{
    match table_in(given) {
        Some(table) => {
            let names = scenes.names();
            let title = store.get(table, Value::Text(names.title));
            let args = store.get(table, Value::Text(names.args));
            Some(Request { title, args })
        }
        None => None,
    }
}

/// The arguments are none.
pub fn refuse(store: &mut Store) -> Stop
    ensures raises { Stops (fails store.old.heap bad_template_arguments) store.new result }
    ensures of { StopOf store.new result }
    ensures later { IsLater store.old store.new }
{
    fail(store, b"bad template arguments")
}

/// The table of which arguments are read, and nothing for nil; None where it is neither.
pub fn entries_table(value: Value) -> Option<Option<TableId>>
    ensures found { (texts : List (List ℕ)) (h : Heap Proc) → meaning.entries_of h (seen texts value) ≡ found_entries h result }
    ensures of { (s : StoreView) → IsOf s value → IfSome result (λ table. IfSome table (IsTableOf s)) }
{
    match value {
        Value::Nil => Some(None),
        Value::Table(table) => Some(Some(table)),
        Value::Bool(_) => None,
        Value::Number(_) => None,
        Value::Text(_) => None,
        Value::Closure(_) => None,
        Value::Builtin(_) => None,
        Value::Markup(_) => None,
    }
}

/// Takes a step for each cleared entry of a table that is passed.
pub fn pay_cleared(store: &Store, left: &mut Left, table: Option<TableId>) -> Result<(), Stop>
    requires { IfSome table (IsTableOf store.now) }
    ensures { MayPay (passed meaning.entry_arg (entries_in store.now.heap table)) left.old left.new result }
{
    match table {
        Some(table) => pay_passed(store, left, table),
        None => Ok(()),
    }
}

/// The arguments of a table; or None where an entry is none.
pub fn read_entries<'b>(
    alloc: Global,
    store: &Store<'b>,
    table: Option<TableId>,
) -> Result<Option<List<ArgText<'b>>>, NoMemory>
    requires { IfSome table (IsTableOf store.now) }
    ensures { IfOk result (λ args. meaning.read_args (entries_in store.now.heap table) ≡ found_args args) }
{
    match table {
        Some(table) => read_args(alloc, store, table),
        None => Ok(Some(List::new(alloc))),
    }
}

/// A text that may be nil; or None where it is neither.
pub fn optional_text<'b>(
    alloc: Global,
    store: &Store<'b>,
    value: Value,
) -> Result<Option<Option<TextIn<'b>>>, NoMemory>
    requires { IsOf store.now value }
    ensures { IfOk result (λ text. meaning.an_optional_text (seen store.now.texts value) ≡ found_optional text) }
{
    if is_nil(value) {
        return Ok(Some(None));
    }
    match text_in(alloc, store, value)? {
        Some(text) => Ok(Some(Some(text))),
        None => Ok(None),
    }
}

/// That a text is no title.
fn quoted(alloc: Global, text: &[u8]) -> Result<Vec<u8>, NoMemory>
    ensures { IfOk result (λ made. made.items ≡ invalid_title text.now) }
{
    let Ok(mut made) = b"invalid title '".to_vec(alloc) else {
        return Err(NoMemory);
    };
    match made.extend_from_slice(text) {
        Ok(_) => {}
        Err(_) => return Err(NoMemory),
    }
    match made.extend_from_slice(b"'") {
        Ok(_) => Ok(made),
        Err(_) => Err(NoMemory),
    }
}

/// A title that is read of a text.
#[derive(Drop)]
pub enum TitleRead {
    Found(Title),
    /// The text is none, as this message says, which quotes it.
    Quotes(TextId),
}

/// A text is no title.
fn invalid(alloc: Global, store: &mut Store, text: &[u8]) -> Result<TitleRead, NoMemory>
    ensures quotes { IfOk result (λ read. Err (invalid_title text.now) ≡ title_found store.new.texts read) }
    ensures none { IfOk result (λ read. IfFound read (store.new ≡ store.old)) }
    ensures of { IfOk result (TitleReadOf store.new) }
    ensures heap { OnOk result (store.new.heap ≡ store.old.heap) }
    ensures later { IsLater store.old store.new }
{
    let message = quoted(alloc, text)?;
    let id = store.text(message.as_slice())?;
    Ok(TitleRead::Quotes(id))
}

/// The title that a text names.
pub fn a_title(
    alloc: Global,
    store: &mut Store,
    text: &[u8],
    default: Namespace,
) -> Result<TitleRead, NoMemory>
    ensures read { IfOk result (λ read. meaning.read_title text.now default ≡ title_found store.new.texts read) }
    ensures same { IfOk result (λ read. IfFound read (store.new ≡ store.old)) }
    ensures of { IfOk result (TitleReadOf store.new) }
    ensures heap { OnOk result (store.new.heap ≡ store.old.heap) }
    ensures later { IsLater store.old store.new }
{
    match Title::read(alloc, text, default) {
        Ok(title) => Ok(TitleRead::Found(title)),
        Err(TitleFault::NoMemory) => Err(NoMemory),
        Err(_) => invalid(alloc, store, text),
    }
}

/// The title that a text names, or where there is none a copy of this one.
pub fn a_child_title(
    alloc: Global,
    store: &mut Store,
    text: &Option<TextIn>,
    own: &Title,
) -> Result<TitleRead, NoMemory>
    ensures read { IfOk result (λ read. meaning.child_title (option_map text_bytes text.now) own.now ≡ title_found store.new.texts read) }
    ensures same { IfOk result (λ read. IfFound read (store.new ≡ store.old)) }
    ensures of { IfOk result (TitleReadOf store.new) }
    ensures heap { OnOk result (store.new.heap ≡ store.old.heap) }
    ensures later { IsLater store.old store.new }
{
    match text {
        Some(text) => a_title(alloc, store, text.as_slice(), Namespace::Main),
        None => {
            let title = own.copy()?;
            Ok(TitleRead::Found(title))
        }
    }
}
