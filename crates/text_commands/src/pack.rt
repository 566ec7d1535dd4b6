//! The command `pack`.

ghost use Rattle.std.specs.Prelude.{IfOk};
ghost use Rattle.protocol_text_rules.specs.Works.{pack_bytes, shown_in, with_text};
ghost use Rattle.text_commands.specs.Answers.{IsReportOf, text_answer};

use crate::faults::fault_report;
use crate::report::Report;
use crate::status::Status;
use base_types::OutOfMemory;
use line_text::ReadStop;
use std::alloc::Global;
use stream_text::packed_frames;

/// Answers the frames of the messages that the lines of the input show.
pub fn pack(alloc: Global, input: &[u8]) -> Result<Report, OutOfMemory>
    ensures { IfOk result (λ report. IsReportOf report (text_answer (with_text pack_bytes (shown_in input.now)))) }
{
    match packed_frames(alloc, input) {
        Ok(text) => Ok(Report {
            status: Status::Ok,
            text,
        }),
        Err(ReadStop::Fault(fault)) => fault_report(alloc, &fault),
        Err(ReadStop::OutOfMemory) => Err(OutOfMemory),
    }
}
