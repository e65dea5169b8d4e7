//! The command that the words of a command line are.
ghost use Rattle.std.specs.Prelude.{◌≡◌, ◌≤◌, None, IfSome, map, option_and_then, string_bytes};
ghost use Rattle.std.specs.List.{before_first};
ghost use Rattle.wk_base.specs.Allowances.{IsCountable};
ghost use Rattle.wiki_words.specs.Items.{is_equals};
ghost use Rattle.wiki_words.specs.Command.{between, number_between};
ghost use Rattle.wiki_tests.specs.Command.{option_named, once, with_text, settled, after_option, after_word, after_words, unread, settings_in, settings_of, command_in, command_of, AreWithin};

use std::marker::Model;
use wk_base::Limits;

/// What can be said behind the folder.
#[derive(Clone, Copy, Debug, PartialEq, Eq)]
pub enum OptionName {
    Steps,
    Jobs,
}

/// What the options say, so far.
#[derive(Clone, Copy, Debug, PartialEq, Eq)]
pub struct Settings {
    pub steps: Option<u64>,
    pub jobs: Option<u64>,
}

/// What was read of the words: the option that waits for its text, and what the others say.
#[derive(Clone, Copy, Debug, PartialEq, Eq)]
pub struct Reading {
    pub waiting: Option<OptionName>,
    pub settings: Settings,
}

/// A folder whose test modules are run, how much each case may use, and how many cases may be worked on at once.
#[derive(Drop)]
pub struct Command<'w> {
    pub folder: &'w str,
    pub limits: Limits,
    pub jobs: u64,
}

impl<'w> Model for Command<'w> {
    ghost use Rattle.wiki_tests.specs.Command.{Command as DefinedCommand};

    ghost Value = { DefinedCommand };

    ghost view = { λ c. record { folder = c.folder.now; limits = c.limits; jobs = c.jobs } };
}

/// How much a case may use where no option says otherwise: as much as a page.
const DEFAULT_LIMITS: Limits = Limits {
    steps: 20_000_000,
    nodes: 1_000_000,
    bytes: 2_097_152,
    calls: 20_000,
    depth: 100,
    templates: 40,
};

/// The most steps that may be asked for.
const MOST_STEPS: u64 = 100_000_000;

const MOST_JOBS: u64 = 64;

/// A number that is `least` to `most`.
fn between(least: u64, most: u64, number: u64) -> Option<u64>
    ensures number { result ≡ between least most number }
    ensures range { IfSome result (λ number. (least ≤ number) × (number ≤ most)) }
{
    ((least <= number) & (number <= most)).then_some(number)
}

/// The number that digits write, with a plus before them or none, where it is `least` to `most`.
fn number_between(least: u64, most: u64, text: &str) -> Option<u64>
    ensures number { result ≡ number_between least most text.now }
    ensures range { IfSome result (λ number. (least ≤ number) × (number ≤ most)) }
{
    match text.parse::<u64>() {
        Ok(number) => between(least, most, number),
        Err(_) => None,
    }
}

/// The option of a name.
fn option_named(name: &str) -> Option<OptionName>
    ensures { result ≡ option_named name.now }
{
    match name {
        "--steps" => Some(OptionName::Steps),
        "--jobs" => Some(OptionName::Jobs),
        _ => None,
    }
}

/// The number that digits write, where none was told before and it is `least` to `most`.
fn told_once(told: Option<u64>, least: u64, most: u64, text: &str) -> Option<u64>
    ensures number { result ≡ once told (number_between least most text.now) }
    ensures range { IfSome result (λ number. (least ≤ number) × (number ≤ most)) }
{
    match told {
        None => number_between(least, most, text),
        Some(_) => None,
    }
}

/// The settings, with the text of one more option.
fn with_text(name: OptionName, text: &str, settings: Settings) -> Option<Settings>
    requires within { AreWithin settings }
    ensures settings { result ≡ with_text name text.now settings }
    ensures within { IfSome result AreWithin }
{
    match name {
        OptionName::Steps => {
            let steps = told_once(settings.steps, 0, MOST_STEPS, text)?;
            Some(Settings {
                steps: Some(steps),
                ..settings
            })
        }
        OptionName::Jobs => {
            let jobs = told_once(settings.jobs, 1, MOST_JOBS, text)?;
            Some(Settings {
                jobs: Some(jobs),
                ..settings
            })
        }
    }
}

/// No option waits for its text.
fn settled(settings: Option<Settings>) -> Option<Reading>
    requires within { IfSome settings AreWithin }
    ensures reading { result ≡ settled settings }
    ensures within { IfSome result (λ r. AreWithin r.settings) }
{
    let settings = settings?;
    Some(Reading {
        waiting: None,
        settings,
    })
}

/// What an option's word leaves: its text stands behind the first `=`, or is the next word.
fn after_option(settings: Settings, word: &str) -> Option<Reading>
    requires within { AreWithin settings }
    ensures within { IfSome result (λ r. AreWithin r.settings) }
    ensures reading { result
        ≡ option_and_then (after_option settings word.now)
        (option_named (before_first is_equals word.now)) }
{
    match word.split_once('=') {
        Some((name, text)) => settled(with_text(option_named(name)?, text, settings)),
        None => {
            let name = option_named(word)?;
            Some(Reading {
                waiting: Some(name),
                settings,
            })
        }
    }
}

/// What one more word leaves. None where it is no option that there is, or says what can't be said.
fn after_word(reading: Reading, word: &str) -> Option<Reading>
    requires within { AreWithin reading.settings }
    ensures reading { result ≡ after_word reading word.now }
    ensures within { IfSome result (λ r. AreWithin r.settings) }
{
    match reading.waiting {
        Some(name) => settled(with_text(name, word, reading.settings)),
        None => after_option(reading.settings, word),
    }
}

/// What the words leave.
fn after_words(words: &[String]) -> Option<Reading>
    ensures within { IfSome result (λ r. AreWithin r.settings) }
    ensures reading { result ≡ after_words unread (map string_bytes words.now) }
{
    let mut reading = Reading {
        waiting: None,
        settings: Settings {
            steps: None,
            jobs: None,
        },
    };
    for word in words {
        reading = after_word(reading, word.as_str())?;
    }
    Some(reading)
}

/// What the options behind the folder say. None where they are not options with their texts, each told once at most.
fn settings_of(words: &[String]) -> Option<Settings>
    ensures within { IfSome result AreWithin }
    ensures settings { result ≡ settings_of (map string_bytes words.now) }
{
    let reading = after_words(words)?;
    match reading.waiting {
        Some(_) => None,
        None => Some(reading.settings),
    }
}

/// A folder, with what the options say.
fn command_in<'w>(folder: &'w str, settings: Settings) -> Command<'w>
    requires within { AreWithin settings }
    ensures command { result ≡ command_in folder.now settings }
    ensures countable { IsCountable result.limits }
    ensures jobs { 1 ≤ result.jobs }
{
    let limits = Limits {
        steps: settings.steps.unwrap_or(DEFAULT_LIMITS.steps),
        ..DEFAULT_LIMITS
    };
    let jobs = settings.jobs.unwrap_or(1);
    Command {
        folder,
        limits,
        jobs,
    }
}

/// The command that the words are, if they are one.
pub fn read_command<'w>(words: &'w [String]) -> Option<Command<'w>>
    ensures command { result ≡ command_of (map string_bytes words.now) }
    ensures countable { IfSome result (λ c. IsCountable c.limits) }
    ensures jobs { IfSome result (λ c. 1 ≤ c.jobs) }
{
    let [folder, rest @ ..] = words else {
        return None;
    };
    let settings = settings_of(rest)?;
    Some(command_in(folder.as_str(), settings))
}
