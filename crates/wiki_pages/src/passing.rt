//! Where a `#switch` goes on behind parts that cannot decide, by the table of their run.
ghost use Rattle.std.specs.Prelude.{◌≡◌, slice_get, IfOk, IfSome};
ghost use Rattle.wiki_markup.specs.Trees.{Trees};
ghost use Rattle.expand_texts.specs.ExpandMeaningPlaces.{first_in};
ghost use Rattle.wiki_pages.specs.Stretches.{parts_from};
ghost use Rattle.wiki_pages.specs.Forests.{nodes_in, option_size};
ghost use Rattle.wiki_pages.specs.Furthers.{default_or, GoesTo, LeadsTo};
ghost use Rattle.wiki_pages.specs.CaseTables.{constant_name, equals_name, default_in, size_in, IsRight, Lands, LandsBehind};

use crate::cases::{Case, Stop, Stretch, hash_of};
use crate::constants::{Constant, read_constant};
use crate::forest::Forest;
use crate::tables::{CaseTable, Landing, case_of};
use expand_texts::equality::are_equal;
use expand_texts::trim;
use wiki_markup::NoMemory;

/// Where a `#switch` goes on: the parts to come, and what is known in front of them besides the default that it had.
#[derive(Drop)]
pub struct Further<'w> {
    pub rest: Forest<'w>,
    /// An earlier valueless part was equal.
    pub met: bool,
    /// A valueless `#default` waits for a value.
    pub waits: bool,
    /// The default, where one was set on the way.
    pub default: Option<Forest<'w>>,
}

/// Whether the name of the part at a place is constant and equal to a value.
fn is_named(run: &Forest<'_>, at: usize, value: &[u8]) -> Result<bool, NoMemory>
    ensures { IfOk result (λ named. named ≡ equals_name value.now (constant_name (first_in (parts_from (nodes_in run.now.nodes) run.now.end at)))) }
{
    let here = run.part(at, run.end)?;
    let (part, _) = here.head()?;
    match read_constant(&part)? {
        Constant::Varied => Ok(false),
        Constant::Valueless(name) => Ok(are_equal(value, trim(name.as_slice()))),
        Constant::Valued(name, _) => Ok(are_equal(value, trim(name.as_slice()))),
    }
}

/// To where a run stops, with an equal part in front of it or none.
fn at_stop(table: &CaseTable, met: bool) -> Landing
    ensures { result ≡ record { met = met; stop = table.now.stop } }
{
    Landing {
        met,
        stop: table.stop,
    }
}

/// Where a case leads whose name is equal: to the next valued part of its run, or where the run stops.
fn behind_equal(table: &CaseTable, case: Case) -> Landing
    ensures { LandsBehind (slice_get table.now.values.items case.group) table.now.stop result }
{
    match table.values.as_slice().get(case.group as usize) {
        Some(at) => Landing {
            met: true,
            stop: Stop {
                at: *at as usize,
                waits: false,
                default: None,
            },
        },
        None => at_stop(table, true),
    }
}

/// Where a value leads from the start of a run. Where another name has its hash, it leads nowhere.
fn lands_at(table: &CaseTable, run: &Forest<'_>, value: &[u8]) -> Result<Option<Landing>, NoMemory>
    requires right { IsRight (nodes_in run.now.nodes) run.now.at table.now }
    requires end { table.now.end ≡ run.now.end }
    ensures { IfOk result (λ landing. IfSome landing (Lands value.now (nodes_in run.now.nodes) run.now.at table.now)) }
{
    let hash = hash_of(table.seed, value);
    match case_of(table.cases.as_slice(), hash) {
        None => Ok(Some(at_stop(table, false))),
        Some(case) => {
            if is_named(run, case.at as usize, value)? {
                return Ok(Some(behind_equal(table, case)));
            }
            Ok(None)
        }
    }
}

/// The default that a run sets, if it sets one.
fn default_of<'w>(
    run: &Forest<'w>,
    default: Option<Stretch>,
) -> Result<Option<Forest<'w>>, NoMemory>
    ensures trees { IfOk result (λ f. (d : Trees) → default_or f d ≡ default_in (nodes_in run.now.nodes) default d) }
    ensures size { IfOk result (λ f. option_size f ≡ size_in default) }
{
    match default {
        Some(stretch) => {
            let default = run.part(stretch.start, stretch.end)?;
            Ok(Some(default))
        }
        None => Ok(None),
    }
}

/// A `#switch` goes on where its value leads.
fn land<'w>(run: &Forest<'w>, landing: Landing) -> Result<Further<'w>, NoMemory>
    ensures { IfOk result (GoesTo run.now landing) }
{
    let rest = run.part(landing.stop.at, run.end)?;
    let default = default_of(run, landing.stop.default)?;
    Ok(Further {
        rest,
        met: landing.met,
        waits: landing.stop.waits,
        default,
    })
}

/// A `#switch` of this value goes on by a table.
fn go_further_by<'w>(
    table: &CaseTable,
    run: &Forest<'w>,
    value: &[u8],
) -> Result<Option<Further<'w>>, NoMemory>
    requires right { IsRight (nodes_in run.now.nodes) run.now.at table.now }
    requires end { table.now.end ≡ run.now.end }
    ensures { IfOk result (λ f. IfSome f (LeadsTo value.now run.now)) }
{
    match lands_at(table, run, value)? {
        Some(landing) => {
            let further = land(run, landing)?;
            Ok(Some(further))
        }
        None => Ok(None),
    }
}

/// Where a `#switch` of this value, which has seen nothing but defaults, goes on behind parts that cannot decide, where a
/// table tells which these are.
pub fn go_further<'w>(run: &Forest<'w>, value: &[u8]) -> Result<Option<Further<'w>>, NoMemory>
    ensures { IfOk result (λ f. IfSome f (LeadsTo value.now run.now)) }
{
    match run.table() {
        Some(table) => {
            if table.end != run.end {
                return Ok(None);
            }
            go_further_by(table, run, value)
        }
        None => Ok(None),
    }
}
