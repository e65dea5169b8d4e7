//! A function of `mw.html` is called.
ghost use Rattle.lua_strings.specs.LuaStoreParts.{IsMarkupOf, IsLater};
ghost use Rattle.lua_strings.specs.LuaBasicSeen.{values_seen, AllOf, Paid, AnswerOf};
ghost use Rattle.mw_htmls.specs.Table as spec;
ghost use Rattle.mw_htmls.specs.Table.{answer_of, method_by};
ghost use Rattle.lua_strings.specs.LuaMeaningTextArguments.{of_texts};

use crate::above::{all_done, done};
use crate::arguments::an_object;
use crate::children::{newline, node, wikitext};
use crate::classes::{add_class, css_text, get_attr};
use crate::making::{create, tag};
use crate::setting::Setter;
use crate::table::{HtmlFunction, Method, name};
use crate::tabled::set_given;
use lua_strings::paying::take_texts;
use lua_strings::{Left, MarkupId, Stop, Store, Value, rest};
use mw_html::List;
use std::alloc::Global;

/// What a method of an object gives; `given` are the arguments behind the object.
fn method_on(
    alloc: Global,
    store: &mut Store,
    left: &mut Left,
    which: Method,
    id: MarkupId,
    given: &[Value],
) -> Result<List<Value>, Stop>
    requires id { IsMarkupOf store.old id }
    requires given { AllOf store.old given.now }
    ensures answer { Paid (spec.method_on which id.at (values_seen store.old.texts given.now) store.old.heap) store.old left.old store.new left.new result }
    ensures of { AnswerOf store.new result }
    ensures later { IsLater store.old store.new }
{
    match which {
        Method::Node => node(alloc, store, id, given),
        Method::Wikitext => wikitext(alloc, store, id, given),
        Method::Newline => newline(alloc, store, id),
        Method::Attr => set_given(alloc, store, left, id, Setter::Attributes, given),
        Method::AddClass => add_class(alloc, store, left, id, given),
        Method::Css => set_given(alloc, store, left, id, Setter::Styles, given),
        Method::CssText => css_text(alloc, store, id, given),
        Method::Tag => tag(alloc, store, id, given),
        Method::Done => done(alloc, store, id),
        Method::AllDone => all_done(alloc, store, id),
        Method::GetAttr => get_attr(alloc, store, left, id, given),
    }
}

/// What a method gives behind the charge of its arguments: its first argument is its object.
fn method(
    alloc: Global,
    store: &mut Store,
    left: &mut Left,
    which: Method,
    args: &[Value],
) -> Result<List<Value>, Stop>
    requires { AllOf store.old args.now }
    ensures answer { Paid (method_by which (values_seen store.old.texts args.now) store.old.heap) store.old left.old store.new left.new result }
    ensures of { AnswerOf store.new result }
    ensures later { IsLater store.old store.new }
{
    let id = an_object(alloc, store, name(which), args)?;
    method_on(alloc, store, left, which, id, rest(args))
}

/// What a method gives, after its charge, of which the bytes of the arguments that are strings come first.
fn method_call(
    alloc: Global,
    store: &mut Store,
    left: &mut Left,
    which: Method,
    args: &[Value],
) -> Result<List<Value>, Stop>
    requires { AllOf store.old args.now }
    ensures answer { Paid (of_texts (method_by which) (values_seen store.old.texts args.now) store.old.heap) store.old left.old store.new left.new result }
    ensures of { AnswerOf store.new result }
    ensures later { IsLater store.old store.new }
{
    take_texts(store, left, args)?;
    method(alloc, store, left, which, args)
}

/// What a function of `mw.html` gives for these arguments, after its charge.
///
/// It is `Stop::Raised` exactly where it raises and its charge is covered, with the level whose place the caller puts in front, and
/// `Stop::Spent` exactly where its charge is not covered; then the store is as it was.
pub fn html_call(
    alloc: Global,
    store: &mut Store,
    left: &mut Left,
    which: HtmlFunction,
    args: &[Value],
) -> Result<List<Value>, Stop>
    requires { AllOf store.old args.now }
    ensures answer { Paid (answer_of which (values_seen store.old.texts args.now) store.old.heap) store.old left.old store.new left.new result }
    ensures of { AnswerOf store.new result }
    ensures later { IsLater store.old store.new }
{
    match which {
        HtmlFunction::Create => create(alloc, store, args),
        HtmlFunction::Method(which) => method_call(alloc, store, left, which, args),
    }
}
