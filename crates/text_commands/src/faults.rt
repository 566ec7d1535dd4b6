//! The answers to inputs with a fault.

ghost use Rattle.std.specs.Prelude.{IfOk};
ghost use Rattle.text_commands.specs.Answers.{IsReportOf, fault_answer, stop_answer};

use crate::report::Report;
use crate::status::Status;
use base_types::{OutOfMemory, TextFault};
use fault_text::{bad_input_line, bad_stream_line};
use protocol_text_rules::StreamKind;
use std::alloc::Global;

/// The answer to a text with a fault.
pub fn fault_report(alloc: Global, fault: &TextFault) -> Result<Report, OutOfMemory>
    ensures { IfOk result (λ report. IsReportOf report (fault_answer fault.now)) }
{
    Ok(Report {
        status: Status::BadInput {
            place: fault.place,
            kind: fault.kind,
        },
        text: bad_input_line(alloc, fault)?,
    })
}

/// The answer to a stream of frames with a fault, in the frame at the offset `place`.
pub fn stream_fault_report(
    alloc: Global,
    place: u64,
    kind: StreamKind,
) -> Result<Report, OutOfMemory>
    ensures { IfOk result (λ report. IsReportOf report (stop_answer (record { offset = place; kind = kind }))) }
{
    Ok(Report {
        status: Status::BadStream { place, kind },
        text: bad_stream_line(alloc, place, &kind)?,
    })
}
