//! The command that the words of a command line are.
ghost use Rattle.std.specs.Prelude.{◌≡◌, IfOk, map, string_bytes};
ghost use Rattle.wiki_fmt.specs.Command.{module_of, verb_of, command_of};

use std::alloc::Global;
use std::marker::Model;
use wk_tool::{Namespace, NoMemory, Title, TitleFault};

/// What is asked of a module.
#[derive(Clone, Copy, PartialEq, Eq)]
pub enum Verb {
    /// Its text is laid out.
    Print,
    /// The globals that it uses are told.
    Lint,
}

/// What is asked of which module of which folder.
#[derive(Drop)]
pub struct Command<'w> {
    pub verb: Verb,
    pub folder: &'w str,
    pub title: Title,
}

impl<'w> Model for Command<'w> {
    ghost use Rattle.wiki_fmt.specs.Command.{Command as DefinedCommand};

    ghost Value = { DefinedCommand };

    ghost view = { λ c. record { verb = c.verb; folder = c.folder.now; title = c.title } };
}

/// The title that a text is read as, if it is one of namespace Module.
fn module_of(alloc: Global, text: &[u8]) -> Result<Option<Title>, NoMemory>
    ensures { IfOk result (λ title. title ≡ module_of text.now) }
{
    match Title::read(alloc, text, Namespace::Module) {
        Ok(title) => {
            if title.ns.is_module() {
                Ok(Some(title))
            } else {
                Ok(None)
            }
        }
        Err(TitleFault::NoMemory) => Err(NoMemory),
        Err(_) => Ok(None),
    }
}

/// What a word asks, if it asks anything.
fn verb_of(word: &str) -> Option<Verb>
    ensures { result ≡ verb_of word.now }
{
    if word == "print" {
        Some(Verb::Print)
    } else if word == "lint" {
        Some(Verb::Lint)
    } else {
        None
    }
}

/// The command that the words are, if they are one.
pub fn read_command<'w>(alloc: Global, words: &'w [String]) -> Result<Option<Command<'w>>, NoMemory>
    ensures { IfOk result (λ command. command ≡ command_of (map string_bytes words.now)) }
{
    let [verb, folder, text] = words else {
        return Ok(None);
    };
    let Some(verb) = verb_of(verb.as_str()) else {
        return Ok(None);
    };
    match module_of(alloc, text.as_bytes()) {
        Ok(Some(title)) => Ok(Some(Command {
            verb,
            folder: folder.as_str(),
            title,
        })),
        Ok(None) => Ok(None),
        Err(NoMemory) => Err(NoMemory),
    }
}
