//! The command `ids`.

ghost use Rattle.std.specs.Prelude.{IfOk};
ghost use Rattle.protocol_text_rules.specs.Works.{ids_in, ids_text, with_text};
ghost use Rattle.text_commands.specs.Answers.{IsReportOf, text_answer};

use crate::faults::fault_report;
use crate::report::Report;
use crate::status::Status;
use base_types::OutOfMemory;
use id_text::ids_lines;
use line_text::ReadStop;
use std::alloc::Global;

/// Answers each id that the input lists with its short id under the key of two salts.
pub fn ids(alloc: Global, salt: u64, other: u64, input: &[u8]) -> Result<Report, OutOfMemory>
    ensures { IfOk result (λ report. IsReportOf report (text_answer (with_text (ids_text salt other) (ids_in input.now)))) }
{
    match ids_lines(alloc, salt, other, input) {
        Ok(text) => Ok(Report {
            status: Status::Ok,
            text,
        }),
        Err(ReadStop::Fault(fault)) => fault_report(alloc, &fault),
        Err(ReadStop::OutOfMemory) => Err(OutOfMemory),
    }
}
