//! Which functions of the library see the frames of a run.
ghost use Rattle.std.specs.Prelude.{◌≡◌};
ghost use Rattle.mw_frame_calls.specs.Table.{frame_in, AreInTable, NoOtherIs};

use mw_frame_texts::Library;

/// A function of the library that sees the frames (Scribunto, Frame object and `mw.getCurrentFrame`).
#[derive(Clone, Copy, Debug, PartialEq, Eq)]
pub enum FrameFunction {
    Current,
    Parent,
    Template,
    Preprocess,
    Argument,
    Pairs,
    Child,
    Title,
    Tag,
}

/// The function of frames that this one is.
pub fn frame_function(which: Library) -> Option<FrameFunction>
    ensures { result ≡ frame_in which }
{
    match which {
        Library::MwGetCurrentFrame => Some(FrameFunction::Current),
        Library::FrameGetParent => Some(FrameFunction::Parent),
        Library::FrameExpandTemplate => Some(FrameFunction::Template),
        Library::FramePreprocess => Some(FrameFunction::Preprocess),
        Library::FrameGetArgument => Some(FrameFunction::Argument),
        Library::FrameArgumentPairs => Some(FrameFunction::Pairs),
        Library::FrameNewChild => Some(FrameFunction::Child),
        Library::FrameGetTitle => Some(FrameFunction::Title),
        Library::FrameExtensionTag => Some(FrameFunction::Tag),
        _ => None,
    }
}

/// What a function of frames gives is what the meaning says of it, and there are no others.
pub fn frame_functions_are_in_the_table()
    ensures table { AreInTable }
    ensures all { NoOtherIs }
{}
