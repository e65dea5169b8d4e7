//! What pages give that were expanded.
ghost use Rattle.std.specs.Prelude.{◌≡◌, IfOk};
ghost use Rattle.wiki_output.specs.Report.{done_report};

use crate::made::{Form, Made};
use crate::output::{stats_if, text_in};
use std::alloc::Global;
use wk_tool::{NoMemory, Report, Status};

/// What pages give that were expanded.
pub fn done_report(
    alloc: Global,
    form: Form,
    stats: bool,
    pages: &[Made],
) -> Result<Report, NoMemory>
    ensures { IfOk result (λ report. report ≡ done_report form stats pages.now) }
{
    let out = text_in(alloc, form, pages)?;
    let err = stats_if(alloc, stats, pages)?;
    Ok(Report {
        status: Status::Done,
        out,
        err,
    })
}
