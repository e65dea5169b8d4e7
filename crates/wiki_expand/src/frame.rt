//! What the expander does next, and what waits for a text.
use expand_texts::arguments::Arguments;
use expand_texts::rope::Rope;
use expand_texts::stack::Stack;
use mw_frame::{Bytes, Job, Title};
use std::alloc::Global;
use wiki_pages::{Forest, PageMap};

/// What stays while a page is expanded: the pages, and the title of the one that is expanded.
#[derive(Drop)]
pub struct Wiki<'w> {
    pub alloc: Global,
    pub pages: &'w PageMap,
    pub page: Title,
}

/// What changes: the scene in which the next text is expanded, and what waits for a text, the nearest first.
#[derive(Drop)]
pub struct Machine<'w> {
    pub scene: Inner,
    pub stack: Stack<Frame<'w>>,
}

/// The text in which the expander stands: the page, or the body of a template.
#[derive(Drop)]
pub struct Inner {
    pub title: Title,
    pub args: Arguments,
    /// The templates that are being expanded, the nearest first.
    pub chain: Stack<Title>,
}

/// Trees that are gone through from the left, up to the first `=` where they hold the name of a part, and the text so far.
#[derive(Drop)]
pub struct Walk<'w> {
    pub rest: Forest<'w>,
    pub named: bool,
    pub out: Rope<'w>,
}

/// What a `#switch` knows before a part.
#[derive(Drop)]
pub struct Seen<'w> {
    /// An earlier valueless part was equal.
    pub met: bool,
    /// A valueless `#default` waits for a value.
    pub waits: bool,
    /// The default so far, empty where none was set.
    pub default: Forest<'w>,
}

/// A `#switch` behind some part: its value, and the parts to come.
#[derive(Drop)]
pub struct Switch<'w> {
    pub value: Vec<u8>,
    pub rest: Forest<'w>,
    pub seen: Seen<'w>,
}

/// What arguments are for: the function of a module, or the text of a page.
#[derive(Drop)]
pub enum Purpose<'w> {
    Invoke(Bytes, Bytes),
    Template(Title, Forest<'w>),
}

/// Arguments that are being expanded: those so far, the number of the next one without a name, and the parts to come.
#[derive(Drop)]
pub struct Call<'w> {
    pub purpose: Purpose<'w>,
    pub args: Arguments,
    pub number: u64,
    pub rest: Forest<'w>,
}

/// What waits for the text of a part.
#[derive(Drop)]
pub enum Frame<'w> {
    /// The text goes on behind it.
    Walk(Walk<'w>),
    /// A construct or a parameter ends: it gives its level back, and takes its bytes.
    Level,
    /// White space at the ends doesn't count.
    Trim,
    /// The name of a parameter, with the parts behind it; the parameter has a level.
    Parameter(Forest<'w>),
    /// The first part of a construct, with the parts behind it.
    First(Forest<'w>),
    /// A part of a construct that stands as it is written, with the parts behind it.
    Written(Forest<'w>),
    /// The right side of `#ifeq`, with its left side and the parts behind it.
    Compare(Vec<u8>, Forest<'w>),
    /// The name of a part of `#switch`, with its value.
    Case(Switch<'w>, Forest<'w>),
    /// A part of `#switch` without a value.
    Valueless(Switch<'w>),
    /// The function of `#invoke`, with the name of the module and the parts behind it.
    Function(Bytes, Forest<'w>),
    /// An argument without a name.
    Unnamed(Call<'w>),
    /// The name of an argument, with its value.
    Name(Call<'w>, Forest<'w>),
    /// The value of an argument, with its name.
    Value(Call<'w>, Bytes),
    /// The body of a page that is included, in the caller's frame with this title and these arguments.
    Body(Title, Arguments),
}

/// What the expander does next: it goes through trees, or hands a text to what waits for it.
#[derive(Drop)]
pub enum Focus<'w> {
    Walk(Walk<'w>),
    Text(Rope<'w>),
}

/// How a step ends.
#[derive(Drop)]
pub enum Progress<'w> {
    /// It goes on.
    On(Focus<'w>),
    /// It goes on, with a node taken or a body begun.
    Deeper(Focus<'w>),
    /// It waits for what an invocation gives.
    Asks(Job),
}

/// Where steps pause.
#[derive(Drop)]
pub enum Pause<'w> {
    /// A node was taken or a body begun.
    Deeper(Focus<'w>),
    /// It waits for what an invocation gives.
    Asks(Job),
    /// It has come to its text.
    Ended(Rope<'w>),
}

/// What comes of opening a construct or a parameter: the text in its place, or it is entered.
#[derive(Drop)]
pub enum Entry<'w> {
    NoNode(Rope<'w>),
    NoLevel(Rope<'w>),
    Entered,
}
