//! The functions of a module, and its constants.
ghost use Rattle.std.specs.Prelude.{◌≡◌, option_map};
ghost use Rattle.lua_code.specs.Seen.{proto_seen, protos_seen};

use crate::statement::Statement;
use lua_syntax::{WkBaseBytes as Bytes, WkBaseList as List};

/// A function of a module: for each parameter whether it has a cell, whether `...` follows them, and its body.
#[derive(Drop)]
pub struct Proto {
    pub flags: List<bool>,
    pub dots: bool,
    pub body: List<Statement>,
}

/// The functions of a module, and its constants: the texts and names in its code, numbered from 0. Number 0 of the functions is the
/// module's text as a whole; the others are numbered from 1.
#[derive(Drop)]
pub struct Protos {
    pub text: Proto,
    pub functions: List<Proto>,
    pub constants: List<Bytes>,
}

impl Protos {
    /// The function of this number, if there is one.
    pub fn get(&self, index: u32) -> Option<&Proto>
        ensures { option_map (λ p. proto_seen p.now) result
            ≡ (protos_seen self.now).function index }
    {
        if index == 0 {
            return Some(&self.text);
        }
        self.functions.as_slice().get(index as usize - 1)
    }

    /// The constant of this number. One that is not there is empty.
    pub fn constant(&self, number: u32) -> &[u8]
        ensures { result.now ≡ (protos_seen self.now).constant number }
    {
        match self.constants.as_slice().get(number as usize) {
            Some(bytes) => bytes.as_slice(),
            None => &[],
        }
    }
}
