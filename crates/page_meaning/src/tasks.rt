//! Runs of Lua and expansions alike, as a driver has them on one stack: what they do next, what they come to, and which data
//! loads they tell.
ghost use Rattle.page_meaning.specs.Tasks.{TasksGoOn, TasksTellLoads, PagesAreTasks};

/// What a task comes to is the reply to which it has come; where it asks, the same is seen of it in the end with the answer to
/// its question, which is what another task comes to.
pub fn tasks_go_on()
    ensures { TasksGoOn }
{}

/// A task is told of no load at its start, and with each reply of that reply's loads; its own reply tells these, within its
/// own load where it is one.
pub fn tasks_tell_loads()
    ensures { TasksTellLoads }
{}

/// A page is what the expansion of its own text comes to, as a task.
pub fn pages_are_tasks()
    ensures { PagesAreTasks }
{}
