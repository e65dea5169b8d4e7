//! Where a `#switch` goes on with a value: a table of the names of a run of its parts, in order of their hashes.
ghost use Rattle.std.specs.Prelude.{◌≡◌, ℕ, List, IfOk};
ghost use Rattle.wiki_markup.specs.Nodes.{Node};
ghost use Rattle.wiki_pages.specs.CaseTables.{InOrder, find_in, find_among, IsRightRun, IsRight};

use crate::cases::{Case, CaseRun, Stop};
use indexmap::IndexMap;
use std::alloc::Global;
use std::hash::RandomState;
use wiki_markup::NoMemory;

/// A run of parts with constant names: the first part of each name, with the hash of the name, and the valued parts. A part
/// that is equal leads to the next valued one, or to the stop; a value that no part is equal to leads to the stop.
#[derive(Drop)]
pub struct CaseTable {
    pub(crate) seed: RandomState,
    /// In order of the hashes, each of which comes once.
    pub(crate) cases: Vec<(u32, Case)>,
    pub(crate) values: Vec<u32>,
    pub(crate) stop: Stop,
    /// Where the parts of the `#switch` end.
    pub(crate) end: usize,
}

/// Where a value leads, and whether an equal part stands in front of it: to where the run stops, or to the part that gives
/// the value, in front of which nothing else need be known.
#[derive(Clone, Copy)]
pub struct Landing {
    pub(crate) met: bool,
    pub(crate) stop: Stop,
}

/// The cases of a map, in its order.
fn listed(
    alloc: Global,
    cases: &IndexMap<u32, Case, RandomState>,
) -> Result<Vec<(u32, Case)>, NoMemory>
    ensures { IfOk result (λ listed. listed.items ≡ cases.now.entries) }
{
    let mut listed = match Vec::with_capacity(alloc, cases.len()) {
        Ok(listed) => listed,
        Err(_) => return Err(NoMemory),
    };
    for (hash, case) in cases {
        match listed.push((*hash, *case)) {
            Ok(_) => (),
            Err(_) => return Err(NoMemory),
        }
    }
    Ok(listed)
}

/// The cases of a map in order of their hashes.
fn in_order(
    alloc: Global,
    cases: &mut IndexMap<u32, Case, RandomState>,
) -> Result<Vec<(u32, Case)>, NoMemory>
    ensures order { IfOk result (λ listed. InOrder listed.items) }
    ensures same { IfOk result (λ listed. (hash : ℕ) → find_among listed.items hash ≡ find_in cases.old hash) }
{
    match cases.sort_unstable_keys() {
        Ok(_) => listed(alloc, cases),
        Err(_) => Err(NoMemory),
    }
}

/// The table of a run that is read.
pub fn table_of(alloc: Global, run: CaseRun) -> Result<CaseTable, NoMemory>
    ensures { IfOk result (λ t. (nodes : List Node) (at : ℕ) → IsRightRun nodes at run → IsRight nodes at t) }
{
    let CaseRun {
        mut cases,
        mut values,
        stop,
        end,
    } = run;
    let seed = *cases.hasher();
    values.shrink_to_fit();
    let cases = in_order(alloc, &mut cases)?;
    Ok(CaseTable {
        seed,
        cases,
        values,
        stop,
        end,
    })
}

/// The case of a hash, if there is one.
pub fn case_of(cases: &[(u32, Case)], hash: u32) -> Option<Case>
    requires { InOrder cases.now }
    ensures { result ≡ find_among cases.now hash }
{
    match cases.binary_search_by_key(&hash, |&(other, _)| other) {
        Ok(at) => Some(cases[at].1),
        Err(_) => None,
    }
}
