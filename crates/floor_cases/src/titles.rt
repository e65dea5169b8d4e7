//! Titles as MediaWiki's rules for them read (Manual:Page title, Help:Namespaces), in this profile.
use crate::rows::{holds, is_text, sides, words};
use case_text::unescaped;
use std::alloc::Global;
use std::test::Fail;
use wk_base::{Namespace, Title, TitleFault, text_reads_back};

/// The default namespace, the namespace that a text is read in, the text, and the title as it is written. Texts have escapes.
fn spellings() -> &'static str {
    r#"Main Main Foo => Foo
Main Main foo => Foo
Main Main z => Z
Main Main 1x => 1x
Main Main `x => `x
Main Main ~x => ~x
Main Main foo bar => Foo bar
Main Main foo_bar => Foo bar
Main Main __foo__bar__ => Foo bar
Main Main \  foo   bar \  => Foo bar
Main Main _ foo _ bar _ => Foo bar
Main Main \tfoo\n => Foo
Main Main \x0b\x0cfoo\r\n => Foo
Main Main \ \t_ foo _\t\  => Foo
Main Main \xc3\xa9lan => \xc3\xa9lan
Main Main \xc3\x9fx => \xc3\x9fx
Main Main \xd1\x91\xd0\xb6 => \xd1\x91\xd0\xb6
Main Main \xf0\x9f\x98\x80 => \xf0\x9f\x98\x80
Main Main \xc2\xa0x => \xc2\xa0x
Main Main :Main => Main
Template Main \ : Main => Main
Template Main :_foo => Foo
Main Template :template:x => Template:X
Main Main foo:bar => Foo:bar
Main Main foo : bar => Foo : bar
Main Main foo:Talk:x => Foo:Talk:x
Main Main Main:x => Main:x
Main Main templatetalk:x => Templatetalk:x
Main Main Tal:x => Tal:x
Main Main Talks:x => Talks:x
Main Main foo: => Foo:"#
}

/// The same of texts that begin with the prefix of a namespace, or are read in one.
fn prefixes() -> &'static str {
    r#"Main Talk Talk:x => Talk:X
Main User user:x => User:X
Main UserTalk User talk:x => User talk:X
Main Project PROJECT:x => Project:X
Main ProjectTalk project talk:x => Project talk:X
Main File File:x.png => File:X.png
Main FileTalk File Talk:x => File talk:X
Main MediaWiki mediawiki:x => MediaWiki:X
Main MediaWikiTalk Mediawiki talk:x => MediaWiki talk:X
Main Template Template:foo => Template:Foo
Main TemplateTalk Template talk:x => Template talk:X
Main Help help:x => Help:X
Main HelpTalk help talk:x => Help talk:X
Main Category Category:x => Category:X
Main CategoryTalk Category talk:x => Category talk:X
Main Module module:x => Module:X
Main ModuleTalk Module talk:x => Module talk:X
Main Template template:foo => Template:Foo
Main Template TEMPLATE:foo => Template:Foo
Main Template tEmPlAtE:foo => Template:Foo
Main Template template : x => Template:X
Main Template \ template: foo__bar\  => Template:Foo bar
Main Template _Template_:_foo_ => Template:Foo
Main TemplateTalk template_talk:x => Template talk:X
Main TemplateTalk TEMPLATE  TALK:x => Template talk:X
Main TemplateTalk template_ _talk\t:\tx => Template talk:X
Main Template Template:Template:x => Template:Template:x
Main Talk Talk:template:x => Talk:Template:x
Template Template foo => Template:Foo
Template Template foo:bar => Template:Foo:bar
Template Main :foo => Foo
Template Talk :Talk:foo => Talk:Foo
Template Talk Talk:x => Talk:X
Module Module sum => Module:Sum
Module Module module:sum => Module:Sum
Module Template Template:sum => Template:Sum
CategoryTalk CategoryTalk x => Category talk:X"#
}

/// Texts that are read in the main namespace, and how: how many bytes the title has, or the fault. A name has at most 255.
fn faults() -> &'static str {
    r#" => Empty
\  => Empty
_ => Empty
\t\r\n => Empty
: => Empty
\ : _ => Empty
Template: => Empty
template : _\  => Empty
:Template: => Empty
Category_talk:\t => Empty
::x => BadByte
::\  => BadByte
Template::x => BadByte
Template: :x => BadByte
a#b => BadByte
a<b => BadByte
a>b => BadByte
a[b => BadByte
a]b => BadByte
a|b => BadByte
a{b => BadByte
a}b => BadByte
# => BadByte
Talk:| => BadByte
\x00 => BadByte
a\x01 => BadByte
a\x1f => BadByte
a\x7fb => BadByte
a\tb => BadByte
a\nb => BadByte
a\x0bb => BadByte
a \t b => BadByte
\xff => BadByte
a\xc3 => BadByte
\x80 => BadByte
\xc0\xaf => BadByte
\xed\xa0\x80 => BadByte
\xe2\x82 => BadByte
\(255:a) => 255
\  _\(255:a)_ \n => 255
\(250:a)\      b => 252
template talk :\ \(255:a) => 269
\(253:a)\xc3\xa9 => 255
\(256:a) => TooLong
Foo:\(252:a) => TooLong
Talk:\(256:a) => TooLong
\(254:a)\xc3\xa9 => TooLong
\(255:a)| => BadByte
\(255:a)\xc3 => BadByte"#
}

fn namespace(name: &str) -> Namespace {
    match name {
        "Talk" => Namespace::Talk,
        "User" => Namespace::User,
        "UserTalk" => Namespace::UserTalk,
        "Project" => Namespace::Project,
        "ProjectTalk" => Namespace::ProjectTalk,
        "File" => Namespace::File,
        "FileTalk" => Namespace::FileTalk,
        "MediaWiki" => Namespace::MediaWiki,
        "MediaWikiTalk" => Namespace::MediaWikiTalk,
        "Template" => Namespace::Template,
        "TemplateTalk" => Namespace::TemplateTalk,
        "Help" => Namespace::Help,
        "HelpTalk" => Namespace::HelpTalk,
        "Category" => Namespace::Category,
        "CategoryTalk" => Namespace::CategoryTalk,
        "Module" => Namespace::Module,
        "ModuleTalk" => Namespace::ModuleTalk,
        _ => Namespace::Main,
    }
}

/// Whether a text reads as this title.
fn reads_as(alloc: Global, text: &[u8], title: &Title) -> bool {
    match Title::read(alloc, text, Namespace::Main) {
        Ok(read) => read == *title,
        Err(_) => false,
    }
}

/// Whether a title is written so, and what is written reads as the title again.
fn is_written(alloc: Global, title: &Title, wanted: &str) -> bool {
    match title.text() {
        Ok(text) => {
            is_text(alloc, text.as_slice(), wanted) && reads_as(alloc, text.as_slice(), title)
        }
        Err(_) => false,
    }
}

/// Whether a text is read in the one namespace, and written so, where the other one is the default.
fn is_title(alloc: Global, text: &[u8], default: Namespace, ns: Namespace, wanted: &str) -> bool {
    match Title::read(alloc, text, default) {
        Ok(title) => title.ns == ns && is_written(alloc, &title, wanted),
        Err(_) => false,
    }
}

/// Whether a text is the title that a row tells, in a namespace by default, and in the one that it is read in.
fn title_holds(alloc: Global, default: Namespace, read: &str, wanted: &str) -> bool {
    let (ns, text) = words(read);
    match unescaped(alloc, text.as_bytes()) {
        Ok(text) => is_title(alloc, text.as_slice(), default, namespace(ns), wanted),
        Err(_) => false,
    }
}

/// Whether a row of titles holds.
fn title_row_holds(alloc: Global, row: &str) -> bool {
    let (given, wanted) = sides(row);
    let (default, read) = words(given);
    title_holds(alloc, namespace(default), read, wanted)
}

/// How a text reads: how many bytes its title has, or the fault.
fn read(alloc: Global, text: &[u8]) -> Result<usize, TitleFault> {
    match Title::read(alloc, text, Namespace::Main) {
        Ok(title) => length(&title),
        Err(fault) => Err(fault),
    }
}

fn length(title: &Title) -> Result<usize, TitleFault> {
    match title.text() {
        Ok(text) => Ok(text.as_slice().len()),
        Err(_) => Err(TitleFault::NoMemory),
    }
}

/// What a row says of a text.
fn said(answer: &str) -> Result<usize, TitleFault> {
    match answer {
        "Empty" => Err(TitleFault::Empty),
        "BadByte" => Err(TitleFault::BadByte),
        "TooLong" => Err(TitleFault::TooLong),
        digits => Ok(digits.parse::<usize>().unwrap_or(0)),
    }
}

/// Whether a row of faults holds.
fn fault_row_holds(alloc: Global, row: &str) -> bool {
    let (text, answer) = sides(row);
    match unescaped(alloc, text.as_bytes()) {
        Ok(text) => read(alloc, text.as_slice()) == said(answer),
        Err(_) => false,
    }
}

/// Whether this is what stands before the colon in titles of a namespace.
fn has_prefix(ns: Namespace, prefix: &str) -> bool {
    ns.prefix() == prefix
}

/// States the law that the text of a title reads back.
fn state_law() {
    text_reads_back(b"user_talk:x", Namespace::Main);
}

#[test]
fn titles_are_read_and_written(rt: HostRuntime) -> Result<(), Fail> {
    for row in spellings().lines() {
        holds(&rt, title_row_holds(rt.alloc(), row), row);
    }
    Ok(())
}

#[test]
fn titles_have_prefixes(rt: HostRuntime) -> Result<(), Fail> {
    holds(&rt, has_prefix(Namespace::Main, ""), "the main namespace");
    holds(
        &rt,
        has_prefix(Namespace::UserTalk, "User talk"),
        "User talk",
    );
    state_law();
    for row in prefixes().lines() {
        holds(&rt, title_row_holds(rt.alloc(), row), row);
    }
    Ok(())
}

#[test]
fn texts_have_faults_and_lengths(rt: HostRuntime) -> Result<(), Fail> {
    for row in faults().lines() {
        holds(&rt, fault_row_holds(rt.alloc(), row), row);
    }
    Ok(())
}
