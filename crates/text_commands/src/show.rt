//! The command `show`.

ghost use Rattle.std.specs.Prelude.{IfOk};
ghost use Rattle.protocol_text_rules.specs.Works.{messages_in};
ghost use Rattle.stream_text.specs.Outcomes.{shown_lines};
ghost use Rattle.text_commands.specs.Answers.{IsReportOf, stream_answer};

use crate::faults::stream_fault_report;
use crate::report::Report;
use crate::status::Status;
use base_types::OutOfMemory;
use std::alloc::Global;
use stream_text::{ShowStop, shown_text};

/// Answers the lines of the messages of the frames of the input.
pub fn show(alloc: Global, input: &[u8]) -> Result<Report, OutOfMemory>
    ensures { IfOk result (λ report. IsReportOf report (stream_answer (shown_lines (messages_in input.now)))) }
{
    match shown_text(alloc, input) {
        Ok(text) => Ok(Report {
            status: Status::Ok,
            text,
        }),
        Err(ShowStop::Fault { offset, kind }) => stream_fault_report(alloc, offset, kind),
        Err(ShowStop::OutOfMemory) => Err(OutOfMemory),
    }
}
