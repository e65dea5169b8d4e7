//! The command that the words of a command line are.
ghost use Rattle.std.specs.Prelude.{◌≡◌, ◌≤◌, true, false, None, IfOk, IfSome, IsOk, IsSome, map, string_bytes};
ghost use Rattle.wk_base.specs.Allowances.{IsCountable};
ghost use Rattle.wiki_words.specs.Command.{texts_for, titles_from, asked_from, expand_from, demo_from, work_from, work_of, command_from, command_of, verb_of, begins_command};

use crate::items::{Item, OptionName, items_of};
use crate::numbers::number_between;
use crate::settings::{Settings, flag_of, same_option, settings_of};
use std::alloc::Global;
use std::marker::Model;
use wk_base::{List, Namespace, NoMemory, Title, TitleFault};

/// Which pages of a folder are asked for.
#[derive(Drop, Debug)]
pub enum Asked {
    /// These, in this order.
    Titles(List<Title>),
    /// All but templates and modules.
    AllPages,
}

/// Pages of a folder that are asked for.
#[derive(Drop, Debug)]
pub struct FolderPages<'w> {
    pub folder: &'w str,
    pub asked: Asked,
}

impl<'w> Model for FolderPages<'w> {
    ghost use Rattle.wiki_words.specs.Folders.{FolderPages as DefinedPages};

    ghost Value = { DefinedPages };

    ghost view = { λ p. record { folder = p.folder.now; asked = p.asked } };
}

/// What is to be expanded.
#[derive(Drop, Debug)]
pub enum Work<'w> {
    Folder(FolderPages<'w>),
    /// So many pages that the program makes itself.
    Made(u64),
}

/// A command.
#[derive(Drop, Debug)]
pub struct Command<'w> {
    pub work: Work<'w>,
    pub settings: Settings,
}

/// The first word of a command.
#[derive(Clone, Copy, Debug, PartialEq, Eq)]
enum Verb {
    Expand,
    Demo,
}

/// The values among the items, in order.
fn values<'w>(alloc: Global, items: &[Item<'w>]) -> Result<Vec<&'w str>, NoMemory>
    ensures { IfOk result (λ values.
        map (λ text. text.now) values.items ≡ texts_for None items.now) }
{
    let mut values = Vec::new(alloc);
    for item in items {
        if same_option(item.option(), None) && values.push(item.text()).is_err() {
            return Err(NoMemory);
        }
    }
    Ok(values)
}

/// The titles that the texts are read as, if each of them is one.
fn titles_from(alloc: Global, texts: &[&str]) -> Result<Option<List<Title>>, NoMemory>
    ensures { IfOk result (λ titles. titles ≡ titles_from (map (λ text. text.now) texts.now)) }
{
    let mut titles = List::new(alloc);
    for text in texts {
        match Title::read(alloc, text.as_bytes(), Namespace::Main) {
            Ok(title) => titles.push(title)?,
            Err(TitleFault::NoMemory) => return Err(NoMemory),
            Err(_) => return Ok(None),
        }
    }
    Ok(Some(titles))
}

/// One page or more, or all of them.
fn asked_from(alloc: Global, texts: &[&str], all: bool) -> Result<Option<Asked>, NoMemory>
    ensures { IfOk result (λ asked. asked ≡ asked_from (map (λ text. text.now) texts.now) all) }
{
    match (texts, all) {
        ([], true) => Ok(Some(Asked::AllPages)),
        ([_, ..], false) => {
            let titles = titles_from(alloc, texts)?;
            Ok(titles.map(Asked::Titles))
        }
        _ => Ok(None),
    }
}

/// A folder, and which of its pages.
fn expand_from<'w>(
    alloc: Global,
    values: &[&'w str],
    all: bool,
) -> Result<Option<Work<'w>>, NoMemory>
    ensures { IfOk result (λ work. work ≡ expand_from (map (λ text. text.now) values.now) all) }
{
    let [folder, texts @ ..] = values else {
        return Ok(None);
    };
    match asked_from(alloc, texts, all)? {
        Some(asked) => Ok(Some(Work::Folder(FolderPages { folder, asked }))),
        None => Ok(None),
    }
}

/// How many pages are to be made.
fn demo_from<'w>(values: &[&'w str], all: bool) -> Option<Work<'w>>
    ensures { result ≡ demo_from (map (λ text. text.now) values.now) all }
{
    match (values, all) {
        ([text], false) => Some(Work::Made(number_between(1, 50_000, text)?)),
        _ => None,
    }
}

fn work_from<'w>(
    alloc: Global,
    verb: Verb,
    values: &[&'w str],
    all: bool,
) -> Result<Option<Work<'w>>, NoMemory>
    ensures { IfOk result (λ work. work ≡ work_from verb (map (λ text. text.now) values.now) all) }
{
    match verb {
        Verb::Expand => expand_from(alloc, values, all),
        Verb::Demo => Ok(demo_from(values, all)),
    }
}

/// The work that the items ask, if they do.
fn work_of<'w>(alloc: Global, verb: Verb, items: &[Item<'w>]) -> Result<Option<Work<'w>>, NoMemory>
    ensures { IfOk result (λ work. work ≡ work_of verb items.now) }
{
    let Some(all) = flag_of(OptionName::All, items) else {
        return Ok(None);
    };
    let values = values(alloc, items)?;
    work_from(alloc, verb, values.as_slice(), all)
}

/// The command of the items, if they are one.
fn command_from<'w>(
    alloc: Global,
    verb: Verb,
    items: &[Item<'w>],
) -> Result<Option<Command<'w>>, NoMemory>
    ensures command { IfOk result (λ command. command ≡ command_from verb items.now) }
    ensures countable { IfOk result (λ command.
        IfSome command (λ c. IsCountable c.settings.limits)) }
    ensures jobs { IfOk result (λ command. IfSome command (λ c. 1 ≤ c.settings.jobs)) }
{
    let Some(settings) = settings_of(items) else {
        return Ok(None);
    };
    match work_of(alloc, verb, items)? {
        Some(work) => Ok(Some(Command { work, settings })),
        None => Ok(None),
    }
}

fn verb_of(word: &str) -> Option<Verb>
    ensures { result ≡ verb_of word.now }
{
    match word {
        "expand" => Some(Verb::Expand),
        "demo" => Some(Verb::Demo),
        _ => None,
    }
}

/// The command that the words are, if they are one. No memory is taken where the first word is no command's.
#[tactic(auto, unfolding(crate::specs::Command::command_of))]
pub fn read_command<'w>(alloc: Global, words: &'w [String]) -> Result<Option<Command<'w>>, NoMemory>
    ensures command { IfOk result (λ command. command ≡ command_of (map string_bytes words.now)) }
    ensures countable { IfOk result (λ command.
        IfSome command (λ c. IsCountable c.settings.limits)) }
    ensures jobs { IfOk result (λ command. IfSome command (λ c. 1 ≤ c.settings.jobs)) }
    ensures some { IfOk result (λ command.
        IfSome command (λ _. IsSome (command_of (map string_bytes words.now)))) }
    ensures begins { IfOk result (λ command.
        IfSome command (λ _. begins_command (map string_bytes words.now) ≡ true)) }
    ensures other_word { begins_command (map string_bytes words.now) ≡ false → IsOk result }
{
    let [word, words @ ..] = words else {
        return Ok(None);
    };
    let Some(verb) = verb_of(word.as_str()) else {
        return Ok(None);
    };
    let Some(items) = items_of(alloc, words)? else {
        return Ok(None);
    };
    command_from(alloc, verb, items.as_slice())
}
