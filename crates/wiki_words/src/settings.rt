//! The options that any command takes: how much a page may use, how many jobs there are, and whether what was used is told.
ghost use Rattle.std.specs.Prelude.{◌≡◌, ◌≤◌, ◌∷◌, [], Some, MatchOption, IfSome};
ghost use Rattle.wk_base.specs.Allowances.{IsCountable};
ghost use Rattle.wiki_words.specs.Command.{same_name, same_option, texts_for, setting, flag_of, settings_of};

use crate::items::{Item, OptionName};
use crate::numbers::number_between;
use wk_base::Limits;

/// What a command says beside its work.
#[derive(Clone, Copy, Debug, PartialEq, Eq)]
pub struct Settings {
    /// How much each page may use.
    pub limits: Limits,
    /// How many pages may be worked on at once.
    pub jobs: u64,
    /// Whether standard error gets a line for each page, with what it used.
    pub stats: bool,
}

/// How much a page may use where no option says otherwise.
const DEFAULT_LIMITS: Limits = Limits {
    steps: 20_000_000,
    nodes: 1_000_000,
    bytes: 2_097_152,
    calls: 20_000,
    depth: 100,
    templates: 40,
};

/// The most that may be asked of each.
const MOST_STEPS: u64 = 100_000_000;

const MOST_NODES: u64 = 4_000_000;

const MOST_BYTES: u64 = 16_000_000;

const MOST_JOBS: u64 = 64;

fn same_name(a: OptionName, b: OptionName) -> bool
    ensures { result ≡ same_name a b }
{
    match (a, b) {
        (OptionName::Steps, OptionName::Steps) => true,
        (OptionName::Nodes, OptionName::Nodes) => true,
        (OptionName::Bytes, OptionName::Bytes) => true,
        (OptionName::Jobs, OptionName::Jobs) => true,
        (OptionName::Stats, OptionName::Stats) => true,
        (OptionName::All, OptionName::All) => true,
        _ => false,
    }
}

pub fn same_option(a: Option<OptionName>, b: Option<OptionName>) -> bool
    ensures { result ≡ same_option a b }
{
    match (a, b) {
        (None, None) => true,
        (Some(a), Some(b)) => same_name(a, b),
        _ => false,
    }
}

/// The first text that is given for an option, and the items behind it.
fn next_text<'i, 'w>(name: OptionName, items: &'i [Item<'w>]) -> Option<(&'w str, &'i [Item<'w>])>
    ensures { MatchOption result (texts_for (Some name) items.now ≡ []) (λ x.
        texts_for (Some name) items.now ≡ x.0.now ∷ texts_for (Some name) x.1.now) }
{
    let mut rest = items;
    while let [item, tail @ ..] = rest {
        if same_option(item.option(), Some(name)) {
            return Some((item.text(), tail));
        }
        rest = tail;
    }
    None
}

/// The number that is given for an option, or else `unsaid`. None where there are two, or one that is not `least` to `most`.
fn setting(name: OptionName, least: u64, most: u64, unsaid: u64, items: &[Item<'_>]) -> Option<u64>
    requires { (least ≤ unsaid) × (unsaid ≤ most) }
    ensures setting { result ≡ setting least most unsaid (texts_for (Some name) items.now) }
    ensures range { IfSome result (λ number. (least ≤ number) × (number ≤ most)) }
{
    let Some((text, rest)) = next_text(name, items) else {
        return Some(unsaid);
    };
    if next_text(name, rest).is_some() {
        return None;
    }
    number_between(least, most, text)
}

/// Whether a flag is given. None where it is given twice.
pub fn flag_of(name: OptionName, items: &[Item<'_>]) -> Option<bool>
    ensures { result ≡ flag_of name items.now }
{
    let Some((_, rest)) = next_text(name, items) else {
        return Some(false);
    };
    if next_text(name, rest).is_some() {
        return None;
    }
    Some(true)
}

/// The settings that the items give. None where an option is given twice, or has a number out of its range.
pub fn settings_of(items: &[Item<'_>]) -> Option<Settings>
    ensures settings { result ≡ settings_of items.now }
    ensures countable { IfSome result (λ settings. IsCountable settings.limits) }
    ensures jobs { IfSome result (λ settings. 1 ≤ settings.jobs) }
{
    let steps = setting(
        OptionName::Steps,
        0,
        MOST_STEPS,
        DEFAULT_LIMITS.steps,
        items,
    )?;
    let nodes = setting(
        OptionName::Nodes,
        0,
        MOST_NODES,
        DEFAULT_LIMITS.nodes,
        items,
    )?;
    let bytes = setting(
        OptionName::Bytes,
        0,
        MOST_BYTES,
        DEFAULT_LIMITS.bytes,
        items,
    )?;
    let jobs = setting(OptionName::Jobs, 1, MOST_JOBS, 1, items)?;
    let stats = flag_of(OptionName::Stats, items)?;
    let limits = Limits {
        steps,
        nodes,
        bytes,
        ..DEFAULT_LIMITS
    };
    Some(Settings {
        limits,
        jobs,
        stats,
    })
}
