//! The frames that wait, of which the newest one is at hand.
ghost use Rattle.std.specs.Prelude.{◌≡◌, ◌-◌, [], ◌∷◌, List, length, drop, slice_get, slice_set, OnOk, OnErr, MatchOption};
ghost use Rattle.std.specs.Option.{option_copied};
ghost use Rattle.std.specs.Borrow.{Bor};
ghost use Rattle.lua_code.specs.declared.expression.Expression.{Expression};
ghost use Rattle.lua_store.specs.declared.value.Value.{Value as Stored};
ghost use Rattle.lua_stack.specs.declared.frame.Frame.{Frame as FrameValue};
ghost use Rattle.lua_stack.specs.declared.frame.Frame.TheVariants as frame_kind;
ghost use Rattle.lua_stack.specs.declared.frame.InExpression.TheVariants as in_expression;

use crate::frame::{Frame, InExpression};
use crate::stack::Stack;
use crate::values::Values;
use mw_frame::NoMemory;
use std::alloc::Global;
use std::marker::Model;

/// The frames that wait, the newest first. Its methods are those of a stack without a type parameter: so the drop of a frame is proved
/// here, and not again in each crate that calls them.
#[derive(Drop)]
pub struct Frames<'m> {
    stack: Stack<Frame<'m>>,
}

impl<'m> Model for Frames<'m> {
    ghost use Rattle.std.specs.Prelude.{List};
    ghost use Rattle.std.specs.Coded.{coded_list};
    ghost use Rattle.lua_stack.specs.declared.frame.Frame.{Frame as FrameValue};
    ghost use Rattle.lua_stack.specs.FrameCode.{coded_frame};

    ghost Value = { List FrameValue };

    ghost coded = { coded_list coded_frame };

    ghost view = { λ f. f.stack };
}

impl<'m> Frames<'m> {
    /// No frame.
    pub fn new(alloc: Global) -> Frames<'m>
        ensures { result ≡ [] }
    {
        Frames {
            stack: Stack::new(alloc),
        }
    }

    /// How many frames wait.
    pub fn len(&self) -> usize
        ensures { result ≡ length self.now }
    {
        self.stack.len()
    }

    /// The frame that is so far from the newest, which is at 0.
    pub fn get(&self, at: usize) -> Option<&Frame<'m>>
        ensures { option_copied result ≡ slice_get self.now at }
    {
        self.stack.get(at)
    }

    /// Takes the newest frame.
    pub fn pop(&mut self) -> Option<Frame<'m>>
        ensures { MatchOption result ((self.old ≡ []) × (self.new ≡ [])) (λ x. self.old ≡ x ∷ self.new) }
    {
        self.stack.pop()
    }

    /// The values before, of a list that is the newest frame, which waits no more.
    pub fn take_before(&mut self) -> Values
        requires { (rest : Bor (List Expression)) × (before : List Stored) × (more : List FrameValue) × (self.old ≡ frame_kind.Expression (in_expression.MoreNext rest before) ∷ more) }
        ensures { (rest : Bor (List Expression)) (before : List Stored) (more : List FrameValue) → self.old ≡ frame_kind.Expression (in_expression.MoreNext rest before) ∷ more → (result ≡ before) × (self.new ≡ more) }
    {
        match self.stack.pop() {
            Some(Frame::Expression(InExpression::MoreNext(_, before))) => before,
            _ => unreachable!(),
        }
    }

    /// One more frame, which is the newest. Where memory runs out, the frames stay as they were.
    pub fn push(&mut self, item: Frame<'m>) -> Result<(), NoMemory>
        ensures ok { OnOk result (self.new ≡ item.entry ∷ self.old) }
        ensures err { OnErr result (self.new ≡ self.old) }
    {
        self.stack.push(item)
    }

    /// Two more frames, of which the inner one is the newest. Where memory runs out, the frames stay as they were.
    pub fn push_two(&mut self, outer: Frame<'m>, inner: Frame<'m>) -> Result<(), NoMemory>
        ensures ok { OnOk result (self.new ≡ inner.entry ∷ outer.entry ∷ self.old) }
        ensures err { OnErr result (self.new ≡ self.old) }
    {
        let count = self.stack.len();
        self.stack.push(outer)?;
        match self.stack.push(inner) {
            Ok(_) => Ok(()),
            Err(_) => {
                self.stack.cut(count);
                Err(NoMemory)
            }
        }
    }

    /// Another frame in the place of the one that is so far from the newest, if that is there.
    pub fn set(&mut self, at: usize, item: Frame<'m>)
        ensures { self.new ≡ slice_set self.old at item.entry }
    {
        self.stack.set(at, item);
    }

    /// Keeps the oldest so many frames.
    pub fn cut(&mut self, depth: usize)
        ensures { self.new ≡ drop (length self.old - depth) self.old }
    {
        self.stack.cut(depth);
    }

    /// No frame waits.
    pub fn clear(&mut self)
        ensures { self.new ≡ [] }
    {
        self.stack.cut(0);
    }
}
