//! Which functions of the library they are.
ghost use Rattle.std.specs.Prelude.{◌≡◌};
ghost use Rattle.lua_strings.specs.Table.{string_function_in, AreInTable};

use lua_basic::Library;

/// A function of `string` or `math` that calls back nobody and makes no iterator (manual 5.4, 5.6).
#[derive(Clone, Copy, Debug, PartialEq, Eq)]
pub enum StringFunction {
    Byte,
    Char,
    Find,
    Match,
    Format,
    Len,
    Lower,
    Upper,
    Rep,
    Reverse,
    Sub,
    Abs,
    Ceil,
    Floor,
    Fmod,
    Max,
    Min,
    Pow,
}

/// The function of `string` or `math` that this one is.
pub fn string_function(which: Library) -> Option<StringFunction>
    ensures { result ≡ string_function_in which }
{
    match which {
        Library::StringByte => Some(StringFunction::Byte),
        Library::StringChar => Some(StringFunction::Char),
        Library::StringFind => Some(StringFunction::Find),
        Library::StringMatch => Some(StringFunction::Match),
        Library::StringFormat => Some(StringFunction::Format),
        Library::StringLen => Some(StringFunction::Len),
        Library::StringLower => Some(StringFunction::Lower),
        Library::StringUpper => Some(StringFunction::Upper),
        Library::StringRep => Some(StringFunction::Rep),
        Library::StringReverse => Some(StringFunction::Reverse),
        Library::StringSub => Some(StringFunction::Sub),
        Library::MathAbs => Some(StringFunction::Abs),
        Library::MathCeil => Some(StringFunction::Ceil),
        Library::MathFloor => Some(StringFunction::Floor),
        Library::MathFmod => Some(StringFunction::Fmod),
        Library::MathMax => Some(StringFunction::Max),
        Library::MathMin => Some(StringFunction::Min),
        Library::MathPow => Some(StringFunction::Pow),
        _ => None,
    }
}

/// What each gives is what the meaning says of it.
pub fn string_functions_are_in_the_table()
    ensures { AreInTable }
{}
