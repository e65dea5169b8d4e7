//! What the machine does next.
ghost use Rattle.std.specs.Prelude.{◌≡◌};

use crate::frame::{Found, Setting, Thing};
use crate::stack::Stack;
use crate::values::{Given, Values};
use lua_code::{Expression, Statement, Target};
use lua_store::{TextId, Value};
use mw_frame::{Ask, Job, List, NoMemory, Title};

/// What passes frames by: a `return` with its values, a `break`, and an error with its value (manual 2.4.4 and 2.7).
#[derive(Drop)]
pub enum Jump {
    Returned(Given),
    Broke,
    Raised(Value),
}

/// What a run is to do: an invocation, or the load of a data module.
#[derive(Drop)]
pub enum Work {
    Invoke(Job),
    Data(Title),
}

/// What the machine does next, above the frames that wait.
#[derive(Drop)]
pub enum Focus<'m> {
    /// Values for the newest frame.
    Gives(Given),
    /// A jump that reaches the newest frame.
    Jumps(Jump),
    Evaluates(&'m Expression),
    /// What is left of a list, and the values before.
    Lists(&'m [Expression], Values),
    /// What is left of the targets of an assignment, those that are found, and the values.
    Finds(&'m [Target], List<Found>, &'m List<Expression>),
    /// What is still to be set, the last target first.
    Sets(Stack<Setting>),
    Runs(&'m [Statement]),
    Starts(Thing<'m>),
    /// The texts of these values, behind the texts before.
    Texts(Values, List<TextId>),
    /// It stands at a question.
    Asks(Box<Ask>),
    /// A run is to begin.
    Works(Box<Work>),
}

impl<'m> Focus<'m> {
    /// Memory ran out, and what was to be next is let go of. (Where a `?` is passed while it is held, each of its parts would be a local of
    /// the function, cleared at each call; and its drop would be proved there once more.)
    #[cold]
    #[inline(never)]
    pub fn give_up(self) -> NoMemory
        ensures { result ≡ record {} }
    {
        NoMemory
    }
}
