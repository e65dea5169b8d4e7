//! The numbers of the runs of Lua on a page.
ghost use Rattle.std.specs.Prelude.{◌≡◌, drop, OnOk};
ghost use Rattle.page_ground.specs.Numbered.{at_work, none_started, after_start, after_end};

use lua_graph::Store;
use lua_state::Stack;
use std::alloc::Global;
use wk_base::NoMemory;

/// The runs of a page, invocations and loads of data, are numbered from 0 in the order in which they start. Each closure that a run makes has its
/// number: the innermost run in progress is the one at work in the store.
#[derive(Drop)]
pub struct Numbers {
    /// The numbers of the runs in progress, the innermost first.
    running: Stack<u32>,
    /// How many runs have started.
    started: u32,
}

/// The number of the innermost run in progress, and 0 where there is none.
fn innermost(running: &Stack<u32>) -> u32
    ensures { result ≡ at_work running.now }
{
    match running.get(0) {
        Some(number) => *number,
        None => 0,
    }
}

/// The innermost run is over.
fn leave(running: &mut Stack<u32>)
    ensures { running.new ≡ drop 1 running.old }
{
    match running.pop() {
        Some(_) => {}
        None => {}
    }
}

impl Numbers {
    /// No run has started.
    pub fn new(alloc: Global) -> Numbers
        ensures { result ≡ none_started }
    {
        Numbers {
            running: Stack::new(alloc),
            started: 0,
        }
    }

    /// A run starts within those in progress, with the next number.
    pub fn start(&mut self, store: &mut Store) -> Result<(), NoMemory>
        ensures numbers { OnOk result (self.new ≡ after_start self.old) }
        ensures store { OnOk result (store.new ≡ record store.old { env = self.old.started }) }
    {
        let number = self.started;
        match number.checked_add(1) {
            Some(next) => {
                self.running.push(number)?;
                self.started = next;
                store.begin_env(number);
                Ok(())
            }
            None => Err(NoMemory),
        }
    }

    /// The innermost run is over, and the one around it is at work again.
    pub fn end(&mut self, store: &mut Store)
        ensures numbers { self.new ≡ after_end self.old }
        ensures store { store.new ≡ record store.old { env = at_work self.new.running } }
    {
        leave(&mut self.running);
        let number = innermost(&self.running);
        store.begin_env(number);
    }
}
