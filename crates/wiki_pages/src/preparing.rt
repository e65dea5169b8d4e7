//! What is prepared of a page when it is added: tables of the parts of its switches.
ghost use Rattle.std.specs.Prelude.{◌≡◌, ◌+◌, ◌-◌, ◌<◌, ◌≤◌, ◌∷◌, ℕ, List, true, IfOk, OnOk, IfSome};
ghost use Rattle.wiki_markup.specs.Nodes.{Node};
ghost use Rattle.wiki_pages.specs.Stretches.{parts_from};
ghost use Rattle.wiki_pages.specs.Forests.{nodes_in, trees_in, parts, size, Amid};
ghost use Rattle.wiki_pages.specs.CaseTables.{IsRightRun, AreRight};

use crate::cases::{CaseRun, Stretch};
use crate::constants::{Constant, read_constant};
use crate::forest::{Forest, Nodes, Split};
use crate::held::{HeldText, Tables};
use crate::tables::table_of;
use expand_texts::rope::Piece;
use expand_texts::trim;
use indexmap::IndexMap;
use std::alloc::Global;
use std::hash::RandomState;
use wiki_markup::{KindView, NoMemory, NodeView};

/// A run of fewer nodes than these has no table: to go through it costs no more than to look for it.
const LEAST_NODES: usize = 64;

/// The part at the stop of a run is passed, if its name is constant and it isn't a valueless last one, which decides.
fn pass(table: &mut CaseRun, part: &Forest<'_>, next: &Forest<'_>) -> Result<bool, NoMemory>
    requires first { parts_from (nodes_in next.now.nodes) table.old.end table.old.stop.at ≡ trees_in part.now ∷ parts next.now }
    requires amid { Amid part.now next.now }
    requires end { next.now.end ≡ table.old.end }
    requires falls { size part.now + size next.now < table.old.end - table.old.stop.at }
    ensures right { OnOk result ((at : ℕ) → IsRightRun (nodes_in next.now.nodes) at table.old → IsRightRun (nodes_in next.now.nodes) at table.new) }
    ensures end { OnOk result (table.new.end ≡ table.old.end) }
    ensures falls { IfOk result (λ passed. passed ≡ true → table.new.end - table.new.stop.at < table.old.end - table.old.stop.at) }
{
    match read_constant(part)? {
        Constant::Varied => Ok(false),
        Constant::Valued(name, value) => {
            let stretch = Stretch {
                start: value.at,
                end: value.end,
            };
            table.pass_valued(trim(name.as_slice()), stretch, next.at)?;
            Ok(true)
        }
        Constant::Valueless(name) => {
            if next.is_over()? {
                return Ok(false);
            }
            table.pass_valueless(trim(name.as_slice()), next.at)?;
            Ok(true)
        }
    }
}

/// The next part of a run is passed, if it can be.
fn pass_next(table: &mut CaseRun, run: &Forest<'_>) -> Result<bool, NoMemory>
    requires { table.old.end ≡ run.now.end }
    ensures right { OnOk result ((at : ℕ) → IsRightRun (nodes_in run.now.nodes) at table.old → IsRightRun (nodes_in run.now.nodes) at table.new) }
    ensures end { OnOk result (table.new.end ≡ table.old.end) }
    ensures falls { IfOk result (λ passed. passed ≡ true → table.new.end - table.new.stop.at < table.old.end - table.old.stop.at) }
{
    let rest = run.part(table.stop.at, run.end)?;
    match rest.take_part()? {
        Some((part, next)) => pass(table, &part, &next),
        None => Ok(false),
    }
}

/// The run of the parts in front whose names are constant.
fn case_run(alloc: Global, seed: RandomState, parts: &Forest<'_>) -> Result<CaseRun, NoMemory>
    ensures right { IfOk result (λ t. IsRightRun (nodes_in parts.now.nodes) parts.now.at t) }
    ensures end { IfOk result (λ t. t.end ≡ parts.now.end) }
{
    let mut table = CaseRun::new(alloc, seed, parts.at, parts.end);
    loop {
        if !pass_next(&mut table, parts)? {
            return Ok(table);
        }
    }
}

/// The table of a run is kept, if the run is long enough.
fn keep(alloc: Global, tables: &mut Tables, at: usize, run: CaseRun) -> Result<(), NoMemory>
    ensures { OnOk result ((nodes : List Node) → AreRight nodes tables.old → IsRightRun nodes at run → AreRight nodes tables.new) }
{
    if run.stop.at.saturating_sub(at) < LEAST_NODES {
        return Ok(());
    }
    let table = table_of(alloc, run)?;
    match tables.insert(at, table) {
        Ok(_) => Ok(()),
        Err(_) => Err(NoMemory),
    }
}

/// The run in front of some parts gets its table. The place where it stops.
fn add_run(
    alloc: Global,
    seed: RandomState,
    tables: &mut Tables,
    parts: &Forest<'_>,
) -> Result<usize, NoMemory>
    requires { AreRight (nodes_in parts.now.nodes) tables.old }
    ensures right { OnOk result (AreRight (nodes_in parts.now.nodes) tables.new) }
    ensures falls { IfOk result (λ stop. parts.now.end - stop ≤ size parts.now) }
{
    let run = case_run(alloc, seed, parts)?;
    let stop = run.stop.at;
    keep(alloc, tables, parts.at, run)?;
    Ok(stop)
}

/// The run in front of some parts gets its table. The parts behind the one where it stops, if it stops at one.
fn add_table<'t>(
    alloc: Global,
    seed: RandomState,
    tables: &mut Tables,
    parts: &Forest<'t>,
) -> Result<Option<Forest<'t>>, NoMemory>
    requires { AreRight (nodes_in parts.now.nodes) tables.old }
    ensures right { OnOk result (AreRight (nodes_in parts.now.nodes) tables.new) }
    ensures amid { IfOk result (λ rest. IfSome rest (λ f. Amid f parts.now)) }
    ensures falls { IfOk result (λ rest. IfSome rest (λ f. size f < size parts.now)) }
{
    let stop = add_run(alloc, seed, tables, parts)?;
    let rest = parts.part(stop, parts.end)?;
    match rest.take_part()? {
        Some((_, behind)) => Ok(Some(behind)),
        None => Ok(None),
    }
}

/// The runs of some parts get their tables.
fn add_tables(
    alloc: Global,
    seed: RandomState,
    tables: &mut Tables,
    parts: Forest<'_>,
) -> Result<(), NoMemory>
    requires { AreRight (nodes_in parts.nodes) tables.old }
    ensures { OnOk result (AreRight (nodes_in parts.entry.nodes) tables.new) }
{
    let mut parts = parts;
    while let Some(rest) = add_table(alloc, seed, tables, &parts)? {
        parts = rest;
    }
    Ok(())
}

/// Whether the first part of a construct may come to the name of `#switch`, in any case and behind `safesubst:`: it begins so,
/// or with fewer letters, which what is expanded may complete.
fn may_be_switch(head: &Forest<'_>) -> Result<bool, NoMemory> {
    match head.split()? {
        Split::Text(text, behind) => Ok(begins_switch(&text, behind.at < behind.end)),
        Split::Construct(_, _) => Ok(true),
        Split::Parameter(_, _) => Ok(true),
        Split::Nothing => Ok(false),
        Split::Equals(_) => Ok(false),
        Split::Part(_, _) => Ok(false),
    }
}

/// Whether a text may begin the name of `#switch`. `more`: what is expanded stands behind it.
fn begins_switch(text: &Piece<'_>, more: bool) -> bool {
    let text = trim(text.as_slice());
    match text {
        [b'#', b's' | b'S', b'w' | b'W', ..] => true,
        [b's' | b'S', b'a' | b'A', b'f' | b'F', b'e' | b'E', ..] => true,
        _ => more && text.len() < 4,
    }
}

/// The parts behind the first of the construct at a place, if one is there that may be a `#switch`.
fn switch_parts<'t>(text: &'t HeldText, at: usize) -> Result<Option<Forest<'t>>, NoMemory>
    ensures { IfOk result (λ parts. IfSome parts (λ f. nodes_in f.nodes ≡ text.now.nodes)) }
{
    match text.node(at) {
        Some(
            NodeView {
                kind: KindView::Construct,
                end,
            },
        ) => later_parts(Forest {
            nodes: Nodes::Held(text),
            at: at.saturating_add(1),
            end,
        }),
        _ => Ok(None),
    }
}

/// The parts behind the first of a construct, if it may be a `#switch`.
fn later_parts<'t>(construct: Forest<'t>) -> Result<Option<Forest<'t>>, NoMemory>
    ensures { IfOk result (λ parts. IfSome parts (λ f. nodes_in f.nodes ≡ nodes_in construct.entry.nodes)) }
{
    let (head, parts) = construct.head()?;
    if may_be_switch(&head)? {
        return Ok(Some(parts));
    }
    Ok(None)
}

/// The runs of the construct at a place get their tables, if it may be a `#switch`.
fn add_tables_at(
    alloc: Global,
    seed: RandomState,
    tables: &mut Tables,
    text: &HeldText,
    at: usize,
) -> Result<(), NoMemory>
    requires { AreRight text.now.nodes tables.old }
    ensures { OnOk result (AreRight text.now.nodes tables.new) }
{
    match switch_parts(text, at)? {
        Some(parts) => add_tables(alloc, seed, tables, parts),
        None => Ok(()),
    }
}

/// The tables of a text. Names are hashed by the seed.
pub fn tables_of(seed: RandomState, text: &HeldText) -> Result<Tables, NoMemory>
    ensures { IfOk result (λ tables. AreRight text.now.nodes tables) }
{
    let alloc = text.alloc();
    let mut tables = IndexMap::with_hasher(alloc, seed);
    for at in 0..text.len() {
        add_tables_at(alloc, seed, &mut tables, text, at)?;
    }
    Ok(tables)
}
