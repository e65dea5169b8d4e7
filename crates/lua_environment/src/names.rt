//! The names of handlers, as texts of a store (manual 2.8).
ghost use Rattle.std.specs.Prelude.{◌≡◌, IfOk};
ghost use Rattle.lua_store.specs.Parts.{IsLater};
ghost use Rattle.lua_stack.specs.Of.{IsNameOf};
ghost use Rattle.lua_environment.specs.Names.{AreAccessNames, AreArithmeticNames, AreOtherNames};

use lua_code::NoMemory;
use lua_store::{Store, TextId};

/// Names of handlers of access and of calls, and of those that functions of the library ask.
#[derive(Clone, Copy)]
pub struct AccessNames {
    pub index: TextId,
    pub set_index: TextId,
    pub call: TextId,
    pub to_string: TextId,
    pub pairs: TextId,
    pub ipairs: TextId,
}

/// Names of handlers of the operators that count, with two operands.
#[derive(Clone, Copy)]
pub struct ArithmeticNames {
    pub add: TextId,
    pub subtract: TextId,
    pub multiply: TextId,
    pub divide: TextId,
    pub modulo: TextId,
    pub power: TextId,
}

/// Names of handlers of the other operators.
#[derive(Clone, Copy)]
pub struct OtherNames {
    pub negate: TextId,
    pub concatenate: TextId,
    pub equal: TextId,
    pub less: TextId,
    pub at_most: TextId,
}

/// The text with these bytes.
fn name(store: &mut Store, bytes: &[u8]) -> Result<TextId, NoMemory>
    ensures of { IfOk result (λ id. IsNameOf store.new id bytes.now) }
    ensures heap { store.new.heap ≡ store.old.heap }
    ensures later { IsLater store.old store.new }
{
    let id = store.text(bytes)?;
    Ok(id)
}

/// The names of handlers of access and of calls.
pub fn access_names(store: &mut Store) -> Result<AccessNames, NoMemory>
    ensures of { IfOk result (AreAccessNames store.new) }
    ensures heap { store.new.heap ≡ store.old.heap }
    ensures later { IsLater store.old store.new }
{
    let index = name(store, b"__index")?;
    let set_index = name(store, b"__newindex")?;
    let call = name(store, b"__call")?;
    let to_string = name(store, b"__tostring")?;
    let pairs = name(store, b"__pairs")?;
    let ipairs = name(store, b"__ipairs")?;
    Ok(AccessNames {
        index,
        set_index,
        call,
        to_string,
        pairs,
        ipairs,
    })
}

/// The names of handlers of the operators that count.
pub fn arithmetic_names(store: &mut Store) -> Result<ArithmeticNames, NoMemory>
    ensures of { IfOk result (AreArithmeticNames store.new) }
    ensures heap { store.new.heap ≡ store.old.heap }
    ensures later { IsLater store.old store.new }
{
    let add = name(store, b"__add")?;
    let subtract = name(store, b"__sub")?;
    let multiply = name(store, b"__mul")?;
    let divide = name(store, b"__div")?;
    let modulo = name(store, b"__mod")?;
    let power = name(store, b"__pow")?;
    Ok(ArithmeticNames {
        add,
        subtract,
        multiply,
        divide,
        modulo,
        power,
    })
}

/// The names of handlers of the other operators.
pub fn other_names(store: &mut Store) -> Result<OtherNames, NoMemory>
    ensures of { IfOk result (AreOtherNames store.new) }
    ensures heap { store.new.heap ≡ store.old.heap }
    ensures later { IsLater store.old store.new }
{
    let negate = name(store, b"__unm")?;
    let concatenate = name(store, b"__concat")?;
    let equal = name(store, b"__eq")?;
    let less = name(store, b"__lt")?;
    let at_most = name(store, b"__le")?;
    Ok(OtherNames {
        negate,
        concatenate,
        equal,
        less,
        at_most,
    })
}
