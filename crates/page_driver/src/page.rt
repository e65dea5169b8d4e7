//! The expansion of a page.
ghost use Rattle.std.specs.Prelude.{◌≡◌, ◌+◌, ◌≤◌, [], IsSome, IfOk, OnOk};
ghost use Rattle.mw_frame.specs.WkBaseAllowances.{IsCountable};
ghost use Rattle.page_tasks.specs.WikiPagesPages.{find_page};
ghost use Rattle.page_tasks.specs.LuaStoreParts.{nothing};
ghost use Rattle.page_meaning.specs.Tasks.{given_text};
ghost use Rattle.page_tasks.specs.Beginning.{BeginsPage, HasPage};
ghost use Rattle.page_tasks.specs.PageGroundGround.{ground_of};
ghost use Rattle.page_tasks.specs.Seen.{reply_seen};
ghost use Rattle.page_driver.specs.Page.{ComesToPage, IsPageOf, IsPageOn};

use crate::begin::{empty_tower, full_left};
use crate::driving::drive;
use crate::wiki::{Page, Wiki};
use bumpalo::Bump;
use lua_code::NoMemory;
use mw_frame::{Bytes, Limits, Title};
use page_tasks::beginning::begin_page;
use page_tasks::task::{Reply, Task};
use page_tasks::{Context, Left, Numbers, Steps, Store, World, outcome_text};
use std::alloc::Global;
use std::hash::RandomState;
use std::sync::ledger::Ledger;

/// No bytes.
fn no_text(alloc: Global) -> Bytes
    ensures { result ≡ [] }
{
    Bytes::of_vec(Vec::new(alloc))
}

/// The text of a reply. An expansion comes to nothing else.
fn text_in(alloc: Global, reply: Reply) -> Result<Bytes, NoMemory>
    ensures { IfOk result (λ text. text ≡ given_text (reply_seen reply)) }
{
    match reply {
        Reply::Ended(so) => outcome_text(alloc, so),
        Reply::Data(_) => Ok(no_text(alloc)),
        Reply::Spent(_) => Ok(no_text(alloc)),
    }
}

/// What the expansion of the page came to, what is left, and the steps of loads that were found kept.
#[derive(Drop)]
struct Came {
    reply: Reply,
    left: Left,
    repeat_charges: u64,
}

/// Goes on with the page's own expansion, with all that the page may use.
fn come_from<'w, L: Ledger>(
    around: &Context<'w>,
    store: &mut Store,
    limits: &Limits,
    root: Task<'w>,
    turns: &mut Steps<L>,
) -> Result<Came, NoMemory>
    requires fresh { store.old ≡ nothing }
    requires held { HasPage (ground_of around.now) }
    requires countable { IsCountable limits.now }
    requires root { BeginsPage (ground_of around.now) root }
    ensures page { IfOk result (λ x.
        ComesToPage (ground_of around.now) limits.now turns.old turns.new x.reply x.left
        x.repeat_charges) }
    ensures rises { OnOk result (turns.old ≤ turns.new) }
    ensures paid { IfOk result (λ x.
        turns.new + x.left.steps + x.repeat_charges ≤ turns.old + limits.now.steps) }
{
    let mut left = full_left(limits);
    let numbers = Numbers::new(around.alloc);
    let mut tower = empty_tower(around.alloc, around.seed, numbers);
    let reply = drive(around, store, &mut left, &mut tower, root, turns)?;
    Ok(Came {
        reply,
        left,
        repeat_charges: tower.repeat_charges,
    })
}

/// Expands the page.
fn expand_within<L: Ledger>(
    around: &Context<'_>,
    store: &mut Store,
    limits: &Limits,
    turns: &mut Steps<L>,
) -> Result<Page, NoMemory>
    requires fresh { store.old ≡ nothing }
    requires held { HasPage (ground_of around.now) }
    requires countable { IsCountable limits.now }
    ensures page { IfOk result (λ p.
        IsPageOn (ground_of around.now) limits.now turns.old turns.new p) }
    ensures rises { OnOk result (turns.old ≤ turns.new) }
    ensures paid { IfOk result (λ p.
        turns.new + p.left.steps + p.repeat_charges ≤ turns.old + limits.now.steps) }
{
    let root = begin_page(around)?;
    let came = come_from(around, store, limits, root, turns)?;
    let Came {
        reply,
        left,
        repeat_charges,
    } = came;
    let text = text_in(around.alloc, reply)?;
    let title = around.world.page.copy()?;
    Ok(Page {
        title,
        text,
        left,
        repeat_charges,
    })
}

/// Expands a page of a wiki in a new store, which holds all that its modules make. The runs of the page are numbered from 0 in the order in which
/// they start, invocations and loads of data alike; each function that a run makes has its number.
pub fn expand_page_in<L: Ledger>(
    alloc: Global,
    seed: RandomState,
    store: &mut Store,
    wiki: &Wiki,
    title: &Title,
    limits: &Limits,
    turns: &mut Steps<L>,
) -> Result<Page, NoMemory>
    requires fresh { store.old ≡ nothing }
    requires held { IsSome (find_page wiki.now.pages title.now) }
    requires countable { IsCountable limits.now }
    // For all modules whose code is held, it is the page of the wiki that has them.
    ensures page { IfOk result (λ p. IsPageOf wiki.now title.now limits.now turns.old turns.new p) }
    ensures rises { OnOk result (turns.old ≤ turns.new) }
    ensures paid { IfOk result (λ p.
        turns.new + p.left.steps + p.repeat_charges ≤ turns.old + limits.now.steps) }
{
    let world = World {
        page: title,
        modules: &wiki.modules,
    };
    let around = Context {
        alloc,
        seed,
        pages: &wiki.pages,
        world,
    };
    expand_within(&around, store, limits, turns)
}

/// Expands a page of a wiki (MediaWiki, Help:Templates; Extension:Scribunto). Each invocation runs in a fresh environment; a data module is
/// evaluated once, where what is left covers it. The counter of turns rises by the nodes of Lua that are begun, and by no more than the steps that
/// are taken, those for kept data left out.
pub fn expand_page<L: Ledger>(
    alloc: Global,
    seed: RandomState,
    wiki: &Wiki,
    title: &Title,
    limits: &Limits,
    turns: &mut Steps<L>,
) -> Result<Page, NoMemory>
    requires held { IsSome (find_page wiki.now.pages title.now) }
    requires countable { IsCountable limits.now }
    // For all modules whose code is held, it is the page of the wiki that has them.
    ensures page { IfOk result (λ p. IsPageOf wiki.now title.now limits.now turns.old turns.new p) }
    ensures rises { OnOk result (turns.old ≤ turns.new) }
    ensures paid { IfOk result (λ p.
        turns.new + p.left.steps + p.repeat_charges ≤ turns.old + limits.now.steps) }
{
    let arena = Bump::new(alloc);
    let mut store = Store::new(alloc, &arena, seed);
    expand_page_in(alloc, seed, &mut store, wiki, title, limits, turns)
}
