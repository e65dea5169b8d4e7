//! How a run ended, and what it writes.
ghost use Rattle.std.specs.Prelude.{◌≡◌, ◌++◌, IfOk, OnOk};
ghost use Rattle.wk_tool.specs.Report.{status_code, line, refusal, usage_report, source_report, missing_report};

use std::alloc::Global;
use wk_shelf::{Bytes, NoMemory, Title};

/// How a run ended.
#[derive(Clone, Copy, Debug, PartialEq, Eq)]
pub enum Status {
    /// What was asked for was printed.
    Done,
    /// The folder has no page of a title.
    NoSuchPage,
    /// The words are no command.
    Usage,
    /// The folder's files make no wiki.
    SourceFault,
    /// The folder, or a file in it, could not be read.
    ReadFault,
    /// A stream did not take what was put to it.
    WriteFault,
    NoMemory,
    /// The text of a module is no Lua.
    SyntaxFault,
    /// A case of a test module failed.
    CaseFailed,
    /// What was asked for can't be told.
    CannotTell,
}

/// The status, what goes to standard output, and what goes to standard error.
#[derive(Drop, Debug)]
pub struct Report {
    pub status: Status,
    pub out: Bytes,
    pub err: Bytes,
}

impl Status {
    /// The exit status of the program.
    pub fn code(self) -> u8
        ensures { result ≡ status_code self }
    {
        match self {
            Status::Done => 0,
            Status::NoSuchPage => 1,
            Status::Usage => 2,
            Status::SourceFault => 3,
            Status::ReadFault => 4,
            Status::WriteFault => 5,
            Status::NoMemory => 6,
            Status::SyntaxFault => 8,
            Status::CaseFailed => 9,
            Status::CannotTell => 10,
        }
    }
}

/// Adds bytes to a text that is made.
pub fn put_bytes(made: &mut Vec<u8>, bytes: &[u8]) -> Result<(), NoMemory>
    ensures { OnOk result (made.new.items ≡ made.old.items ++ bytes.now) }
{
    match made.extend_from_slice(bytes) {
        Ok(_) => Ok(()),
        Err(_) => Err(NoMemory),
    }
}

/// A line on standard error: the tool's name, then what it says of what.
fn line(alloc: Global, tool: &[u8], saying: &[u8], of: &[u8]) -> Result<Bytes, NoMemory>
    ensures { IfOk result (λ text. text ≡ line tool.now (saying.now ++ of.now)) }
{
    let mut text = Vec::new(alloc);
    put_bytes(&mut text, tool)?;
    put_bytes(&mut text, b": ")?;
    put_bytes(&mut text, saying)?;
    put_bytes(&mut text, of)?;
    put_bytes(&mut text, b"\n")?;
    Ok(Bytes::of_vec(text))
}

/// The report of a status that prints nothing, with these bytes on standard error.
pub fn refusal(alloc: Global, status: Status, err: Bytes) -> Report
    ensures { result ≡ refusal status err }
{
    Report {
        status,
        out: Bytes::of_vec(Vec::new(alloc)),
        err,
    }
}

/// What words give that are no command: the line that says which ones are.
pub fn usage_report(alloc: Global, usage: &[u8]) -> Result<Report, NoMemory>
    ensures { IfOk result (λ report. report ≡ usage_report usage.now) }
{
    let err = Bytes::of(alloc, usage)?;
    Ok(refusal(alloc, Status::Usage, err))
}

/// What a folder's source fault gives.
pub fn source_report(alloc: Global, tool: &[u8], fault: &[u8]) -> Result<Report, NoMemory>
    ensures { IfOk result (λ report. report ≡ source_report tool.now fault.now) }
{
    let err = line(alloc, tool, b"source fault: ", fault)?;
    Ok(refusal(alloc, Status::SourceFault, err))
}

/// What a page gives that is asked for and isn't held.
pub fn missing_report(alloc: Global, tool: &[u8], title: &Title) -> Result<Report, NoMemory>
    ensures { IfOk result (λ report. report ≡ missing_report tool.now title.now) }
{
    let text = title.text()?;
    let err = line(alloc, tool, b"no such page: ", text.as_slice())?;
    Ok(refusal(alloc, Status::NoSuchPage, err))
}
