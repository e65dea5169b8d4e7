//! Which functions of the library they are.
ghost use Rattle.std.specs.Prelude.{◌≡◌};
ghost use Rattle.mw_htmls.specs.Table.{html_function_in, name_of, AreInTable};

use lua_strings::Library;

/// A method of an object of `mw.html` (Scribunto, HTML library).
#[derive(Clone, Copy, Debug, PartialEq, Eq)]
pub enum Method {
    Node,
    Wikitext,
    Newline,
    Attr,
    AddClass,
    Css,
    CssText,
    Tag,
    Done,
    AllDone,
    GetAttr,
}

/// A function of `mw.html`.
#[derive(Clone, Copy, Debug, PartialEq, Eq)]
pub enum HtmlFunction {
    Create,
    Method(Method),
}

/// The function of `mw.html` that this one is.
pub fn html_function(which: Library) -> Option<HtmlFunction>
    ensures { result ≡ html_function_in which }
{
    match which {
        Library::HtmlCreate => Some(HtmlFunction::Create),
        Library::HtmlNode => Some(HtmlFunction::Method(Method::Node)),
        Library::HtmlWikitext => Some(HtmlFunction::Method(Method::Wikitext)),
        Library::HtmlNewline => Some(HtmlFunction::Method(Method::Newline)),
        Library::HtmlAttr => Some(HtmlFunction::Method(Method::Attr)),
        Library::HtmlAddClass => Some(HtmlFunction::Method(Method::AddClass)),
        Library::HtmlCss => Some(HtmlFunction::Method(Method::Css)),
        Library::HtmlCssText => Some(HtmlFunction::Method(Method::CssText)),
        Library::HtmlTag => Some(HtmlFunction::Method(Method::Tag)),
        Library::HtmlDone => Some(HtmlFunction::Method(Method::Done)),
        Library::HtmlAllDone => Some(HtmlFunction::Method(Method::AllDone)),
        Library::HtmlGetAttr => Some(HtmlFunction::Method(Method::GetAttr)),
        _ => None,
    }
}

/// The name of a method, by which an object has it and messages tell it.
pub fn name(which: Method) -> &'static [u8]
    ensures { result.now ≡ name_of which }
{
    match which {
        Method::Node => b"node",
        Method::Wikitext => b"wikitext",
        Method::Newline => b"newline",
        Method::Attr => b"attr",
        Method::AddClass => b"addClass",
        Method::Css => b"css",
        Method::CssText => b"cssText",
        Method::Tag => b"tag",
        Method::Done => b"done",
        Method::AllDone => b"allDone",
        Method::GetAttr => b"getAttr",
    }
}

/// What each gives is what the meaning says of it.
pub fn html_functions_are_in_the_table()
    ensures { AreInTable }
{}
