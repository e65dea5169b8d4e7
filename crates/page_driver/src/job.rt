//! One invocation by itself.
ghost use Rattle.std.specs.Prelude.{◌≡◌, ◌+◌, ◌≤◌, [], IfOk, OnOk};
ghost use Rattle.mw_frame.specs.WkBaseAllowances.{IsCountable};
ghost use Rattle.mw_frame.specs.Scenes.{HaveNames};
ghost use Rattle.page_meaning.specs.LuaMeaningStart.{Invoke};
ghost use Rattle.page_tasks.specs.LuaStoreParts.{nothing};
ghost use Rattle.page_tasks.specs.PageGroundGround.{ground_of};
ghost use Rattle.page_tasks.specs.PageGroundNumbered.{none_started};
ghost use Rattle.page_meaning.specs.Tasks.{Running};
ghost use Rattle.page_tasks.specs.Seen.{outcome_of};
ghost use Rattle.page_driver.specs.Driven.{Fits, Expanded};
ghost use Rattle.page_driver.specs.Job.{IsJobOf, IsJobOn, IsEndOf};

use crate::begin::{empty_tower, full_left};
use crate::driving::drive;
use crate::tower::Tower;
use crate::wiki::Wiki;
use bumpalo::Bump;
use lua_code::NoMemory;
use mw_frame::{Bytes, Job, Limits, Title};
use page_meaning::JobOutcome;
use page_tasks::beginning::begin_invocation;
use page_tasks::task::Reply;
use page_tasks::{Context, Left, Numbers, Steps, Store, World};
use std::alloc::Global;
use std::hash::RandomState;
use std::sync::ledger::Ledger;

/// How an invocation by itself ended, and what is left of its allowances.
#[derive(Drop)]
pub struct JobEnd {
    pub outcome: JobOutcome,
    pub left: Left,
}

/// How an invocation ended that came to this reply. It comes to no data.
fn outcome_in(alloc: Global, reply: Reply) -> JobOutcome
    ensures { result ≡ outcome_of reply }
{
    match reply {
        Reply::Ended(so) => so,
        Reply::Data(_) => JobOutcome::Done(Bytes::of_vec(Vec::new(alloc))),
        Reply::Spent(which) => JobOutcome::Spent(which),
    }
}

/// How an invocation ended that came to this reply, with what is left.
fn job_end(alloc: Global, came: Result<Reply, NoMemory>, left: Left) -> Result<JobEnd, NoMemory>
    ensures { IfOk result (λ e. IsEndOf came left e) }
{
    match came {
        Ok(reply) => {
            let outcome = outcome_in(alloc, reply);
            Ok(JobEnd { outcome, left })
        }
        Err(error) => Err(error),
    }
}

/// The first run of a new store is an invocation, and goes on to its end, where nothing waits and nothing is kept.
fn come_to_end<'w, L: Ledger>(
    around: &Context<'w>,
    store: &mut Store,
    left: &mut Left,
    tower: &mut Tower<'w>,
    job: Job,
    turns: &mut Steps<L>,
) -> Result<Reply, NoMemory>
    requires fresh { store.old ≡ nothing }
    requires names { HaveNames job }
    requires stack { tower.old.stack ≡ [] }
    requires keep { tower.old.keep ≡ [] }
    requires charges { tower.old.repeat_charges ≡ 0 }
    requires numbers { tower.old.numbers ≡ none_started }
    requires fits { Fits left.old }
    ensures { IfOk result (λ r.
        Expanded (ground_of around.now) (Running (Invoke job)) left.old turns.old
        store.new left.new turns.new tower.new r) }
{
    tower.numbers.start(store)?;
    let root = begin_invocation(around, store, job)?;
    drive(around, store, left, tower, root, turns)
}

/// Runs an invocation as the first run in a new store.
fn run_within<L: Ledger>(
    around: &Context<'_>,
    store: &mut Store,
    job: Job,
    limits: &Limits,
    turns: &mut Steps<L>,
) -> Result<JobEnd, NoMemory>
    requires fresh { store.old ≡ nothing }
    requires names { HaveNames job }
    requires countable { IsCountable limits.now }
    ensures ends { IfOk result (λ e.
        IsJobOn (ground_of around.now) job limits.now turns.old turns.new e) }
    ensures rises { OnOk result (turns.old ≤ turns.new) }
    ensures paid { IfOk result (λ e. turns.new + e.left.steps ≤ turns.old + limits.now.steps) }
{
    let mut left = full_left(limits);
    let numbers = Numbers::new(around.alloc);
    let mut tower = empty_tower(around.alloc, around.seed, numbers);
    let came = come_to_end(around, store, &mut left, &mut tower, job, turns);
    job_end(around.alloc, came, left)
}

/// Runs an invocation in a new store.
fn run_in<L: Ledger>(
    alloc: Global,
    seed: RandomState,
    store: &mut Store,
    wiki: &Wiki,
    page: &Title,
    job: Job,
    limits: &Limits,
    turns: &mut Steps<L>,
) -> Result<JobEnd, NoMemory>
    requires fresh { store.old ≡ nothing }
    requires names { HaveNames job }
    requires countable { IsCountable limits.now }
    ensures ends { IfOk result (λ e.
        IsJobOf wiki.now page.now job limits.now turns.old turns.new e) }
    ensures rises { OnOk result (turns.old ≤ turns.new) }
    ensures paid { IfOk result (λ e. turns.new + e.left.steps ≤ turns.old + limits.now.steps) }
{
    let world = World {
        page,
        modules: &wiki.modules,
    };
    let around = Context {
        alloc,
        seed,
        pages: &wiki.pages,
        world,
    };
    run_within(&around, store, job, limits, turns)
}

/// Runs one invocation by itself (Extension:Scribunto, `#invoke`), with all that the limits allow and in an environment of its own, as if the page of
/// this title invoked it: its questions are answered as on that page, and it sees nothing of any other run. Where it fails, the message is what stands
/// between the tags of the error's text on a page; a module that is not held fails as `require` of it does. The counter of turns rises by the nodes of
/// Lua that are begun, and by no more than the steps that are taken, those for kept data left out.
pub fn run_job<L: Ledger>(
    alloc: Global,
    seed: RandomState,
    wiki: &Wiki,
    page: &Title,
    job: Job,
    limits: &Limits,
    turns: &mut Steps<L>,
) -> Result<JobEnd, NoMemory>
    requires names { HaveNames job }
    requires countable { IsCountable limits.now }
    // For all modules whose code is held, it is the run of the wiki that has them.
    ensures ends { IfOk result (λ e.
        IsJobOf wiki.now page.now job limits.now turns.old turns.new e) }
    ensures rises { OnOk result (turns.old ≤ turns.new) }
    ensures paid { IfOk result (λ e. turns.new + e.left.steps ≤ turns.old + limits.now.steps) }
{
    let arena = Bump::new(alloc);
    let mut store = Store::new(alloc, &arena, seed);
    run_in(alloc, seed, &mut store, wiki, page, job, limits, turns)
}
