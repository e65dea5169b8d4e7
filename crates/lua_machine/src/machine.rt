//! A machine of Lua: a run that goes on until an event.
ghost use Rattle.std.specs.Prelude.{◌≡◌, ◌+◌, ◌<◌, ◌≤◌, ◌^◌, ℕ, List, max, IfOk, OnOk};
ghost use Rattle.mw_frame.specs.declared.question.Ask.{Ask as PlainAsk};
ghost use Rattle.lua_store.specs.LuaHeapReach.{nowhere, Frame};
ghost use Rattle.lua_code.specs.LuaMeaningQuestions.{Answer as PlainAnswer};
ghost use Rattle.lua_home_laws.specs.LuaMeaningStart.{Work as PlainWork};
ghost use Rattle.lua_code.specs.LuaSlotsCode.{CWorld};
ghost use Rattle.lua_blocks.specs.LuaSlotsPoints.{SFrame, Gives, Works};
ghost use Rattle.lua_home_laws.specs.LuaPointsClauses.{Starts, GoesOnWith};
ghost use Rattle.lua_home_laws.specs.LuaPointsLaws.{TakesItsOwn};
ghost use Rattle.lua_blocks.specs.LuaStackSeen.{focus_seen, work_seen};
ghost use Rattle.lua_blocks.specs.LuaStateSeen.{slots_of, frames_of};
ghost use Rattle.lua_machine.specs.Moved.{point_of};
ghost use Rattle.lua_store.specs.Parts.{IsLater};
ghost use Rattle.lua_environment.specs.LuaStackOf.{FocusOf, WorkOf};
ghost use Rattle.lua_blocks.specs.LuaStateOf.{StateOf};
ghost use Rattle.lua_machine.specs.Events.{MachineOf, GoesFrom, stop_seen, funds_after, EventOf, BackAt, Settles, AnswerOf, answer_outcome};

use crate::event::{Answer, Event};
use crate::going::advance;
use lua_blocks::{
    Activations, ByTitle, Codes, Focus, Frames, Given, Jump, Left, Stack, State, Steps, Values,
    World, boxed,
};
use lua_code::NoMemory;
use lua_environment::environment;
use lua_runs::{Scenes, Work};
use lua_store::{Store, Value};
use std::alloc::Global;
use std::hash::RandomState;
use std::mem::replace;
use std::sync::ledger::Ledger;

/// A run of Lua that goes on until an event.
#[derive(Drop)]
pub struct Machine<'m> {
    alloc: Global,
    state: State<'m>,
    /// What is next. While a question is open, and behind the end, it is nothing of meaning.
    next: Focus<'m>,
    /// The most calls that were in progress at one time, in all of the run.
    height: u64,
}

/// Gives back the calls in progress.
fn give_back<'m>(state: &mut State<'m>, left: &mut Left)
    requires { left.old.calls + state.old.calls < 2 ^ 64 }
    ensures state { state.new ≡ record state.old { calls = 0 } }
    ensures left { left.new ≡ record left.old { calls = left.old.calls + state.old.calls } }
{
    left.calls += state.calls;
    state.calls = 0;
}

/// Gives back the calls in progress where the run is over or spent.
fn settle<'m>(state: &mut State<'m>, left: &mut Left, event: &Event)
    requires { left.old.calls + state.old.calls < 2 ^ 64 }
    ensures { Settles event.now left.old state.old left.new state.new }
{
    match event {
        Event::Over(_) => give_back(state, left),
        Event::Spent(_) => give_back(state, left),
        Event::Asks(_) => {}
    }
}

/// Goes on until an event, from what is next, and gives back the calls in progress where the run is over or spent. The state's height is then
/// that of this call alone.
fn proceed<'m, L: Ledger>(
    alloc: Global,
    store: &mut Store,
    left: &mut Left,
    state: &mut State<'m>,
    focus: Focus<'m>,
    turns: &mut Steps<L>,
) -> Result<Event, NoMemory>
    requires state { StateOf store.old state.old }
    requires focus { FocusOf store.old focus }
    requires calls { left.old.calls + state.old.calls < 2 ^ 64 }
    ensures of { IfOk result (λ e. StateOf store.new state.new × EventOf store.new e) }
    ensures later { OnOk result (IsLater store.old store.new) }
    ensures world { OnOk result (state.new.codes.world ≡ state.old.codes.world) }
    ensures goes { IfOk result (λ e. (n : ℕ) → turns.new ≡ turns.old + n → GoesFrom store.old state.old focus.entry left.old (stop_seen store.new state.new e (funds_after left.new state.new n))) }
    ensures counts { OnOk result ((turns.old ≤ turns.new) × (turns.new + left.new.steps ≤ turns.old + left.old.steps)) }
    ensures back { IfOk result (λ e. BackAt e left.old state.old.calls left.new state.new.calls) }
    ensures takes { OnOk result (TakesItsOwn left.old left.new) }
{
    state.height = 0;
    let event = advance(alloc, store, left, state, focus, turns)?;
    settle(state, left, &event);
    Ok(event)
}

/// The greater of two numbers of calls.
fn higher(a: u64, b: u64) -> u64
    ensures { result ≡ max a b }
{
    a.max(b)
}

/// What is next after an answer: its text, nothing where there is no page, its tables, or its message as an error.
fn told<'m>(alloc: Global, store: &mut Store, answer: Answer) -> Result<Focus<'m>, NoMemory>
    requires { AnswerOf store.old answer }
    ensures of { IfOk result (FocusOf store.new) }
    ensures later { IsLater store.old store.new }
    ensures heap { store.new.heap ≡ store.old.heap }
    ensures point { IfOk result (λ f. (fs : List SFrame) → focus_seen store.new f fs ≡ Gives (answer_outcome store.old.texts answer) fs) }
{
    match answer {
        Answer::Expanded(text) => {
            let text = store.text(text.as_slice())?;
            Ok(Focus::Gives(Given::One(Value::Text(text))))
        }
        Answer::NoPage => Ok(Focus::Gives(Given::Many(Values::new(alloc)))),
        Answer::Loaded(value) => Ok(Focus::Gives(Given::One(value))),
        Answer::LoadFailed(message) => {
            let text = store.text(message.as_slice())?;
            Ok(Focus::Jumps(Jump::Raised(Value::Text(text))))
        }
    }
}

/// What a run holds in a fresh environment, before its first event.
fn fresh_state<'m>(
    alloc: Global,
    store: &mut Store,
    seed: RandomState,
    world: World<'m>,
) -> Result<State<'m>, NoMemory>
    ensures of { IfOk result (StateOf store.new) }
    ensures world { IfOk result (λ m. m.codes.world ≡ world.entry) }
    ensures starts { IfOk result (λ m. (code : CWorld) (work : PlainWork) → Starts code work store.old.heap (slots_of store.new m)) }
    ensures idle { IfOk result (λ m. m.calls ≡ 0) }
    ensures frame { OnOk result (Frame nowhere store.old.heap store.new.heap) }
    ensures later { OnOk result (IsLater store.old store.new) }
{
    let env = environment(store)?;
    let scenes = Scenes::new(alloc, store, seed)?;
    Ok(State {
        frames: Frames::new(alloc),
        regs: Stack::new(alloc),
        functions: Activations::new(alloc),
        env,
        modules: ByTitle::new(alloc, seed),
        loaded: ByTitle::new(alloc, seed),
        scenes,
        codes: Codes::new(alloc, seed, world),
        calls: 0,
        height: 0,
    })
}

impl<'m> Machine<'m> {
    /// A machine for a work, in a fresh environment of its own in the store (Scribunto, "Lua environment"). Nothing of the work is done or
    /// charged yet. The world is the page that is expanded and the modules. Maps of the machine are hashed from the seed.
    pub fn start(
        alloc: Global,
        store: &mut Store,
        seed: RandomState,
        world: World<'m>,
        work: Work,
    ) -> Result<Machine<'m>, NoMemory>
        requires work { WorkOf work }
        ensures of { IfOk result (MachineOf store.new) }
        ensures world { IfOk result (λ m. m.state.codes.world ≡ world.entry) }
        ensures next { IfOk result (λ m. point_of store.new m.state m.next ≡ Works (work_seen work)) }
        ensures starts { IfOk result (λ m. (code : CWorld) → Starts code (work_seen work) store.old.heap (slots_of store.new m.state)) }
        ensures idle { IfOk result (λ m. (m.state.calls ≡ 0) × (m.height ≡ 0)) }
        ensures frame { OnOk result (Frame nowhere store.old.heap store.new.heap) }
        ensures later { OnOk result (IsLater store.old store.new) }
    {
        let work = boxed(alloc, work)?;
        let state = fresh_state(alloc, store, seed, world)?;
        Ok(Machine {
            alloc,
            state,
            next: Focus::Works(work),
            height: 0,
        })
    }

    /// How many calls are in progress.
    pub fn calls(&self) -> u64
        ensures { result ≡ self.now.state.calls }
    {
        self.state.calls
    }

    /// The most calls that were in progress at one time so far.
    pub fn height(&self) -> u64
        ensures { result ≡ self.now.height }
    {
        self.height
    }

    /// The answer to the question at which the machine stands. `height` is the most calls that were in progress at one time in what was run
    /// for it.
    pub fn answer(&mut self, store: &mut Store, answer: Answer, height: u64) -> Result<(), NoMemory>
        requires machine { MachineOf store.old self.old }
        requires answer { AnswerOf store.old answer }
        requires height { self.old.state.calls + height < 2 ^ 64 }
        ensures of { OnOk result (MachineOf store.new self.new) }
        ensures later { OnOk result (IsLater store.old store.new) }
        ensures heap { OnOk result (store.new.heap ≡ store.old.heap) }
        ensures state { OnOk result (self.new.state ≡ self.old.state) }
        ensures point { OnOk result (point_of store.new self.new.state self.new.next ≡ Gives (answer_outcome store.old.texts answer) (frames_of store.new self.new.state)) }
        ensures slots { OnOk result (slots_of store.new self.new.state ≡ slots_of store.old self.old.state) }
        ensures goes_on { OnOk result ((code : CWorld) (q : PlainAsk) (a : PlainAnswer) → GoesOnWith code q (frames_of store.new self.new.state) (slots_of store.new self.new.state) a (answer_outcome store.old.texts answer)) }
        ensures height { OnOk result (self.new.height ≡ max self.old.height (self.old.state.calls + height)) }
    {
        let next = told(self.alloc, store, answer)?;
        self.height = higher(self.height, self.state.calls + height);
        self.next = next;
        Ok(())
    }

    /// Goes on until an event: the end, where what the run gave or raised is told; where steps or calls are spent; or a question, after
    /// which `answer` is called. The counter of turns rises by the nodes, turns of loops and functions entered.
    pub fn go<L: Ledger>(
        &mut self,
        store: &mut Store,
        left: &mut Left,
        turns: &mut Steps<L>,
    ) -> Result<Event, NoMemory>
        requires machine { MachineOf store.old self.old }
        requires calls { left.old.calls + self.old.state.calls < 2 ^ 64 }
        ensures of { IfOk result (λ e. MachineOf store.new self.new × EventOf store.new e) }
        ensures world { OnOk result (self.new.state.codes.world ≡ self.old.state.codes.world) }
        ensures later { OnOk result (IsLater store.old store.new) }
        ensures goes { IfOk result (λ e. (n : ℕ) → turns.new ≡ turns.old + n → GoesFrom store.old self.old.state self.old.next left.old (stop_seen store.new self.new.state e (funds_after left.new self.new.state n))) }
        ensures counts { OnOk result ((turns.old ≤ turns.new) × (turns.new + left.new.steps ≤ turns.old + left.old.steps)) }
        ensures back { IfOk result (λ e. BackAt e left.old self.old.state.calls left.new self.new.state.calls) }
        ensures takes { OnOk result (TakesItsOwn left.old left.new) }
        ensures height { OnOk result (self.new.height ≡ max self.old.height self.new.state.height) }
    {
        let nothing = Focus::Gives(Given::Many(Values::new(self.alloc)));
        let focus = replace(&mut self.next, nothing);
        let event = proceed(self.alloc, store, left, &mut self.state, focus, turns)?;
        self.height = higher(self.height, self.state.height);
        Ok(event)
    }
}
