//! What a function that sees the frames gives.
ghost use Rattle.std.specs.Prelude.{◌≡◌, ◌∷◌, [], IfOk};
ghost use Rattle.mw_frame_calls.specs.declared.answer.FrameAnswer.TheVariants as answer;

use mw_frame::{Ask, List, NoMemory};
use mw_frame_texts::{TextId, Value, single};
use std::alloc::Global;

/// What waits for the answer of a question.
#[derive(Clone, Copy, Debug, PartialEq, Eq)]
pub enum Awaited {
    /// The text of a template, which was named by this text (Scribunto, `frame:expandTemplate`).
    Template(TextId),
    /// A text that is expanded (Scribunto, `frame:preprocess`).
    Text,
}

/// What a function that sees the frames gives.
#[derive(Drop)]
pub enum FrameAnswer {
    /// Values.
    Gives(List<Value>),
    /// An error whose message, this text, quotes what the call was given.
    Quotes(TextId),
    /// A question, and what waits for its answer.
    Asks(Ask, Awaited),
    /// It goes on as `pairs` of this value (Scribunto, `frame:argumentPairs`).
    Walks(Value),
}

/// A single value is given.
pub fn one(alloc: Global, value: Value) -> Result<FrameAnswer, NoMemory>
    ensures { IfOk result (λ a. a ≡ answer.Gives (value ∷ [])) }
{
    let values = single(alloc, value)?;
    Ok(FrameAnswer::Gives(values))
}
