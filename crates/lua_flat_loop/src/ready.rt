//! Modules that are ready to run, and the code of a function.
ghost use Rattle.std.specs.Prelude.{◌≡◌, slice_get, IfSome};
ghost use Rattle.std.specs.Option.{option_copied};
ghost use Rattle.lua_flat_loop.specs.Code.{function_at, IsCodeOf};

use lua_flat_code::{Function, Functions, Step};
use lua_store::{TextId, Value};

/// A module that is ready to run: the text of its title, its functions, and its constants as values of the store, texts first.
#[derive(Drop)]
pub struct Ready<'m> {
    pub title: TextId,
    pub functions: &'m Functions,
    pub constants: Vec<Value>,
}

/// The code of a function, with the constants of its module.
#[derive(Clone, Copy)]
pub(crate) struct Code<'a> {
    pub function: &'a Function,
    pub steps: &'a [Step],
    pub constants: &'a [Value],
}

/// The function of this number in a module.
fn function_in(functions: &Functions, index: u32) -> Option<&Function>
    ensures { option_copied result ≡ function_at functions.now index }
{
    if index == 0 {
        return Some(&functions.text);
    }
    functions.functions.as_slice().get(index as usize - 1)
}

/// The module of this number, if it is there.
#[inline(always)]
fn module_at<'a, 'm>(modules: &'a [Ready<'m>], source: u32) -> Option<&'a Ready<'m>>
    ensures { option_copied result ≡ slice_get modules.now source }
{
    let at = source as usize;
    if at < modules.len() {
        return Some(&modules[at]);
    }
    None
}

/// The code of a function, if it is there.
#[inline(never)]
pub(crate) fn code_of<'a>(modules: &'a [Ready<'_>], source: u32, index: u32) -> Option<Code<'a>>
    ensures { IfSome result (IsCodeOf modules.now source index) }
{
    match module_at(modules, source) {
        Some(home) => match function_in(home.functions, index) {
            Some(function) => Some(Code {
                function,
                steps: function.steps.as_slice(),
                constants: home.constants.as_slice(),
            }),
            None => None,
        },
        None => None,
    }
}
