//! The words of a command line as texts, some of them given for an option.
ghost use Rattle.std.specs.Prelude.{◌≡◌, ◌++◌, [], IfOk, OnOk, map, string_bytes, option_map};
ghost use Rattle.std.specs.List.{before_first, cons_option};
ghost use Rattle.std.specs.Option.{option_and_then};
ghost use Rattle.wiki_words.specs.Items.{is_option, is_equals, is_flag, option_named, with_text, alone, meaning_of, items_of, given, value, option_meaning};

use std::alloc::Global;
use std::marker::Model;
use wk_base::NoMemory;

/// What can be said behind the verb of a command, beside its values.
#[derive(Clone, Copy, Debug, PartialEq, Eq)]
pub enum OptionName {
    Steps,
    Nodes,
    Bytes,
    Jobs,
    Stats,
    All,
}

/// What the next word is.
#[derive(Clone, Copy, Debug, PartialEq, Eq)]
pub enum Reading {
    /// An option, or a value.
    Any,
    /// The text of the option before it.
    TextOf(OptionName),
    /// A value, whatever it begins with.
    ValueAlone,
}

/// A text, and the option that it is given for: none where it is a value. A flag has the empty text.
#[derive(Drop)]
pub struct Item<'w> {
    option: Option<OptionName>,
    text: &'w str,
}

impl<'w> Model for Item<'w> {
    ghost use Rattle.wiki_words.specs.Items.{Item as DefinedItem};

    ghost Value = { DefinedItem };

    ghost view = { λ i. record { option = i.option; text = i.text.now } };
}

impl<'w> Item<'w> {
    fn value(text: &'w str) -> Item<'w>
        ensures { result ≡ value text.now }
    {
        Item { option: None, text }
    }

    fn given(name: OptionName, text: &'w str) -> Item<'w>
        ensures { result ≡ given name text.now }
    {
        Item {
            option: Some(name),
            text,
        }
    }

    pub fn option(&self) -> Option<OptionName>
        ensures { result ≡ self.now.option }
    {
        self.option
    }

    pub fn text(&self) -> &'w str
        ensures { result.now ≡ self.now.text }
    {
        self.text
    }
}

/// Whether a word begins with `-` and isn't a lone `-`.
fn is_option(word: &[u8]) -> bool
    ensures { result ≡ is_option word.now }
{
    match word {
        [b'-', _, ..] => true,
        _ => false,
    }
}

/// The option of a name.
fn option_named(name: &str) -> Option<OptionName>
    ensures { result ≡ option_named name.now }
{
    match name {
        "--steps" => Some(OptionName::Steps),
        "--nodes" => Some(OptionName::Nodes),
        "--bytes" => Some(OptionName::Bytes),
        "--jobs" => Some(OptionName::Jobs),
        "--stats" => Some(OptionName::Stats),
        "--all" => Some(OptionName::All),
        _ => None,
    }
}

/// Whether an option stands alone; each other one has a text.
fn is_flag(name: OptionName) -> bool
    ensures { result ≡ is_flag name }
{
    matches!(name, OptionName::Stats | OptionName::All)
}

/// What an option says that has a text behind its first `=`. None where it is a flag.
fn with_text<'w>(name: OptionName, text: &'w str) -> Option<(Option<Item<'w>>, Reading)>
    ensures { option_map (λ s. record { item = s.0; next = s.1 }) result ≡ with_text text.now name }
{
    if is_flag(name) {
        return None;
    }
    Some((Some(Item::given(name, text)), Reading::Any))
}

/// What an option says that is a word of its own.
fn alone<'w>(name: OptionName) -> (Option<Item<'w>>, Reading)
    ensures { (record { item = result.0; next = result.1 }) ≡ alone name }
{
    if is_flag(name) {
        return (Some(Item::given(name, "")), Reading::Any);
    }
    (None, Reading::TextOf(name))
}

/// What an option's word says: its text stands behind its first `=` or is the next word, or it is a flag.
fn option_meaning<'w>(word: &'w str) -> Option<(Option<Item<'w>>, Reading)>
    ensures { option_map (λ s. record { item = s.0; next = s.1 }) result
        ≡ option_and_then (option_meaning word.now)
        (option_named (before_first is_equals word.now)) }
{
    match word.split_once('=') {
        Some((name, text)) => with_text(option_named(name)?, text),
        None => Some(alone(option_named(word)?)),
    }
}

/// What a word says: the text that it adds, if it adds one, and what the next word is. None where it is no option that there is.
fn meaning_of<'w>(reading: Reading, word: &'w str) -> Option<(Option<Item<'w>>, Reading)>
    ensures { option_map (λ s. record { item = s.0; next = s.1 }) result
        ≡ meaning_of reading word.now }
{
    match reading {
        Reading::TextOf(name) => Some((Some(Item::given(name, word)), Reading::Any)),
        Reading::ValueAlone => Some((Some(Item::value(word)), Reading::ValueAlone)),
        Reading::Any => {
            if word == "--" {
                return Some((None, Reading::ValueAlone));
            }
            if is_option(word.as_bytes()) {
                return option_meaning(word);
            }
            Some((Some(Item::value(word)), Reading::Any))
        }
    }
}

/// Adds the text of a word, if it adds one.
fn put_item<'w>(items: &mut Vec<Item<'w>>, item: Option<Item<'w>>) -> Result<(), NoMemory>
    ensures { OnOk result (items.new.items ≡ items.old.items ++ cons_option item.entry []) }
{
    let Some(item) = item else {
        return Ok(());
    };
    match items.push(item) {
        Ok(_) => Ok(()),
        Err(_) => Err(NoMemory),
    }
}

/// The texts of the words: None where an option is unknown or a flag has a text, or where the last option lacks its text.
pub fn items_of<'w>(alloc: Global, words: &'w [String]) -> Result<Option<Vec<Item<'w>>>, NoMemory>
    ensures { IfOk result (λ items.
        option_map (λ v. v.items) items ≡ items_of (map string_bytes words.now)) }
{
    let mut items = Vec::new(alloc);
    let mut reading = Reading::Any;
    for word in words {
        let Some((item, next)) = meaning_of(reading, word.as_str()) else {
            return Ok(None);
        };
        put_item(&mut items, item)?;
        reading = next;
    }
    match reading {
        Reading::TextOf(_) => Ok(None),
        _ => Ok(Some(items)),
    }
}
