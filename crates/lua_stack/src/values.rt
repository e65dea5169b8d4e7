//! Values in flight (manual 2.4.3 and 2.5): lists of values that are moved from frame to frame, and grow and shrink at both ends.
ghost use Rattle.std.specs.Prelude.{◌≡◌, ◌++◌, ◌∷◌, [], ℕ, List, length, IfOk, OnOk, OnErr};
ghost use Rattle.lua_code.specs.LuaHeapValue as kind;
ghost use Rattle.lua_code.specs.LuaMeaningValues as plain;
ghost use Rattle.lua_store.specs.Seen.{seen};
ghost use Rattle.lua_stack.specs.Lists.{first_stored, rest_stored, given_values};

use lua_store::Value;
use mw_frame::{List, NoMemory};
use std::alloc::Global;
use std::collections::VecDeque;
use std::marker::Model;

/// More values behind these.
fn append(items: &mut Vec<Value>, more: &[Value]) -> Result<(), NoMemory>
    ensures { OnOk result (items.new.items ≡ items.old.items ++ more.now) }
{
    match items.extend_from_slice(more) {
        Ok(_) => Ok(()),
        Err(_) => Err(NoMemory),
    }
}

/// A list of values. One is put at either end, or taken from the front, in constant time.
#[derive(Drop)]
pub struct Values {
    items: VecDeque<Value>,
}

impl Model for Values {
    ghost use Rattle.std.specs.Prelude.{List};
    ghost use Rattle.std.specs.Coded.{coded_list};
    ghost use Rattle.lua_store.specs.declared.value.Value.{Value as Stored};
    ghost use Rattle.lua_store.specs.contracts.value.Value as stored;

    ghost Value = { List Stored };

    ghost coded = { coded_list stored.the_row.coded };

    ghost view = { λ v. v.items.items };
}

impl Values {
    /// No value.
    pub fn new(alloc: Global) -> Values
        ensures { result ≡ [] }
    {
        Values {
            items: VecDeque::new(alloc),
        }
    }

    /// The values of a list, without a copy.
    pub fn of_list(list: List<Value>) -> Values
        ensures { result ≡ list }
    {
        Values {
            items: VecDeque::from_vec(list.into_vec()),
        }
    }

    /// The values as a list. They are copied at most once.
    pub fn into_list(self) -> List<Value>
        ensures { result ≡ self }
    {
        List::of_vec(self.items.into_vec())
    }

    /// How many there are.
    pub fn len(&self) -> usize
        ensures { result ≡ length self.now }
    {
        self.items.len()
    }

    /// The first of them, or nil.
    pub fn first(&self) -> Value
        ensures { result ≡ first_stored self.now }
    {
        match self.items.front() {
            Some(value) => *value,
            None => Value::Nil,
        }
    }

    /// The first of them, which is taken out, or nil where there is none.
    pub fn take_first(&mut self) -> Value
        ensures first { result ≡ first_stored self.old }
        ensures rest { self.new ≡ rest_stored self.old }
    {
        match self.items.pop_front() {
            Some(value) => value,
            None => Value::Nil,
        }
    }

    /// One more value behind the others. Where memory runs out, they stay as they were.
    pub fn add(&mut self, value: Value) -> Result<(), NoMemory>
        ensures ok { OnOk result (self.new ≡ self.old ++ value ∷ []) }
        ensures err { OnErr result (self.new ≡ self.old) }
    {
        match self.items.push_back(value) {
            Ok(_) => Ok(()),
            Err(_) => Err(NoMemory),
        }
    }

    /// One more value in front of the others. Where memory runs out, they stay as they were.
    pub fn put(&mut self, value: Value) -> Result<(), NoMemory>
        ensures ok { OnOk result (self.new ≡ value ∷ self.old) }
        ensures err { OnErr result (self.new ≡ self.old) }
    {
        match self.items.push_front(value) {
            Ok(_) => Ok(()),
            Err(_) => Err(NoMemory),
        }
    }

    /// An equal list.
    pub fn copy(&self, alloc: Global) -> Result<Values, NoMemory>
        ensures { IfOk result (λ values. values ≡ self.now) }
    {
        let (front, behind) = self.items.as_slices();
        let mut items = Vec::new(alloc);
        append(&mut items, front)?;
        append(&mut items, behind)?;
        Ok(Values {
            items: VecDeque::from_vec(items),
        })
    }

    /// All of these behind the others.
    pub fn add_all(&mut self, more: Values) -> Result<(), NoMemory>
        ensures { OnOk result (self.new ≡ self.old ++ more) }
    {
        let mut more = more.items;
        match self.items.append(&mut more) {
            Ok(_) => Ok(()),
            Err(_) => Err(NoMemory),
        }
    }
}

/// Values in flight: a single one takes no memory.
#[derive(Drop)]
pub enum Given {
    One(Value),
    Many(Values),
}

impl Given {
    /// The first of them, or nil.
    pub fn first(&self) -> Value
        ensures { result ≡ first_stored (given_values self.now) }
    {
        match self {
            Given::One(value) => *value,
            Given::Many(values) => values.first(),
        }
    }

    /// All of them as a list at both ends of which values can be put.
    pub fn into_values(self, alloc: Global) -> Result<Values, NoMemory>
        ensures { IfOk result (λ values. values ≡ given_values self) }
    {
        match self {
            Given::One(value) => {
                let mut values = Values::new(alloc);
                values.add(value)?;
                Ok(values)
            }
            Given::Many(values) => Ok(values),
        }
    }

    /// These behind others.
    pub fn behind(self, before: Values) -> Result<Values, NoMemory>
        ensures { IfOk result (λ values. values ≡ before ++ given_values self) }
    {
        let mut before = before;
        match self {
            Given::One(value) => {
                before.add(value)?;
                Ok(before)
            }
            Given::Many(values) => {
                before.add_all(values)?;
                Ok(before)
            }
        }
    }
}

/// Whether a value is nil.
pub fn is_nil(value: Value) -> bool
    ensures { (texts : List (List ℕ)) → result ≡ kind.is_nil (seen texts value) }
{
    match value {
        Value::Nil => true,
        Value::Bool(_) => false,
        Value::Number(_) => false,
        Value::Text(_) => false,
        Value::Table(_) => false,
        Value::Closure(_) => false,
        Value::Builtin(_) => false,
        Value::Markup(_) => false,
    }
}

/// Whether a value is true: neither false nor nil (manual 2.4.4).
pub fn is_true(value: Value) -> bool
    ensures { (texts : List (List ℕ)) → result ≡ kind.is_true (seen texts value) }
{
    match value {
        Value::Nil => false,
        Value::Bool(b) => b,
        Value::Number(_) => true,
        Value::Text(_) => true,
        Value::Table(_) => true,
        Value::Closure(_) => true,
        Value::Builtin(_) => true,
        Value::Markup(_) => true,
    }
}

/// Whether a value is a function, of Lua or of the library.
pub fn is_function(value: Value) -> bool
    ensures { (texts : List (List ℕ)) → result ≡ plain.is_function (seen texts value) }
{
    match value {
        Value::Nil => false,
        Value::Bool(_) => false,
        Value::Number(_) => false,
        Value::Text(_) => false,
        Value::Table(_) => false,
        Value::Closure(_) => true,
        Value::Builtin(_) => true,
        Value::Markup(_) => false,
    }
}
