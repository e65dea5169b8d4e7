//! Where the parts of a tree stand.
ghost use Rattle.std.specs.Prelude.{◌≡◌, ◌≤◌};
ghost use Rattle.lua_grammar.specs.Grammar.{under, in_loop, in_function};

use lua_grammar::Context;

/// One more node above.
pub fn under(context: Context) -> Context
    requires { context.above ≤ 201 }
    ensures { result ≡ under context }
{
    Context {
        above: context.above + 1,
        inside_loop: context.inside_loop,
        vararg: context.vararg,
    }
}

/// In the body of a loop, which is one more node above (manual 2.4.4).
pub fn in_loop(context: Context) -> Context
    requires { context.above ≤ 201 }
    ensures { result ≡ in_loop context }
{
    Context {
        above: context.above + 1,
        inside_loop: true,
        vararg: context.vararg,
    }
}

/// In the body of a function, which is in no loop yet, and has `...` where its parameters end with it (manual 2.5.9).
pub fn in_function(dots: bool, context: Context) -> Context
    ensures { result ≡ in_function dots context }
{
    Context {
        above: context.above,
        inside_loop: false,
        vararg: dots,
    }
}
