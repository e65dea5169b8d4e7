//! The tokens of a text and the comments between them, each with the white space before it.
ghost use Rattle.std.specs.Prelude.{◌≡◌, ◌+◌, ◌^◌, ◌<◌, [], ◌∷◌, ◌++◌, length, IfOk, OnOk};
ghost use Rattle.lua_lexer.specs.Lexis.{Lexes};
ghost use Rattle.lua_print.specs.Items.{gap_of, behind_space, items_of};
ghost use Rattle.lua_print.specs.Answers.{tokens_in};

use crate::fronts::{breaks, front};
use lua_lexer::Token;
use lua_reading::TokenClass;
use lua_reading::tokens::token_at;
use lua_syntax::NoMemory;
use std::alloc::Global;
use std::marker::Model;

/// The white space before an item.
#[derive(Clone, Copy, Debug, PartialEq, Eq)]
pub enum Gap {
    /// The item is the first.
    First,
    /// No line break.
    Beside,
    /// One line break.
    Below,
    /// More than one.
    Apart,
}

/// What stands at the front of a text, and how many bytes it has.
#[derive(Clone, Copy)]
pub enum Front {
    Space(usize),
    /// A token by its class, or a comment.
    Shown(Option<TokenClass>, usize),
}

/// A token or a comment.
#[derive(Drop)]
pub struct Item<'t> {
    gap: Gap,
    class: Option<TokenClass>,
    bytes: &'t [u8],
}

impl<'t> Model for Item<'t> {
    ghost use Rattle.lua_print.specs.Items.{Item as DefinedItem};

    ghost Value = { DefinedItem };

    ghost view = { λ i. record { gap = i.gap; class = i.class; bytes = i.bytes.now } };
}

impl<'t> Item<'t> {
    /// The white space before the item.
    pub fn gap(&self) -> Gap
        ensures { result ≡ self.now.gap }
    {
        self.gap
    }

    /// What a token is to the grammar. A comment is nothing.
    pub fn class(&self) -> Option<TokenClass>
        ensures { result ≡ self.now.class }
    {
        self.class
    }

    pub fn bytes(&self) -> &'t [u8]
        ensures { result.now ≡ self.now.bytes }
    {
        self.bytes
    }
}

fn gap_of(breaks: usize) -> Gap
    ensures { result ≡ gap_of breaks }
{
    if breaks == 0 {
        Gap::Beside
    } else if breaks == 1 {
        Gap::Below
    } else {
        Gap::Apart
    }
}

/// What stands before the next item, once white space with so many line breaks is passed over.
fn behind_space(gap: Gap, breaks: usize) -> Gap
    ensures { result ≡ behind_space gap breaks }
{
    match gap {
        Gap::First => Gap::First,
        _ => gap_of(breaks),
    }
}

fn push<'t>(items: &mut Vec<Item<'t>>, item: Item<'t>) -> Result<(), NoMemory>
    ensures { OnOk result (items.new.items ≡ items.old.items ++ item.entry ∷ []) }
{
    match items.push(item) {
        Ok(_) => Ok(()),
        Err(_) => Err(NoMemory),
    }
}

/// How many tokens an item is.
fn tokens_in(class: Option<TokenClass>) -> usize
    ensures { result ≡ tokens_in class }
{
    match class {
        None => 0,
        Some(_) => 1,
    }
}

/// The items of a text that is made of these tokens.
pub fn items_of<'t>(
    alloc: Global,
    text: &'t [u8],
    tokens: &[Token],
) -> Result<Vec<Item<'t>>, NoMemory>
    requires lexed { Lexes text.now tokens.now }
    requires short { length text.now < 2 ^ 62 }
    ensures { IfOk result (λ items. items.items ≡ items_of text.now) }
{
    let mut items = Vec::new(alloc);
    let mut left = text;
    let mut place = 0;
    let mut next = 0;
    let mut gap = Gap::First;
    while !left.is_empty() {
        let token = token_at(tokens, next);
        match front(left, place, token) {
            Front::Space(size) => {
                let (space, back) = left.split_at(size);
                gap = behind_space(gap, breaks(space));
                left = back;
                place += size;
            }
            Front::Shown(class, size) => {
                let (bytes, back) = left.split_at(size);
                push(&mut items, Item { gap, class, bytes })?;
                gap = Gap::Beside;
                left = back;
                place += size;
                next += tokens_in(class);
            }
        }
    }
    Ok(items)
}
