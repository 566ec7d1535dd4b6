//! The command `make`.

ghost use Rattle.std.specs.Prelude.{IfOk};
ghost use Rattle.sketch_rules.specs.Sketches.{IsCapacity};
ghost use Rattle.sketch_text_rules.specs.Elements.{set_in};
ghost use Rattle.text_commands.specs.Answers.{IsReportOf, make_answer};

use crate::faults::fault_report;
use crate::report::{Report, sketch_report};
use base_types::OutOfMemory;
use line_text::ReadStop;
use sketch_core::Sketch;
use sketch_text::set_of;
use std::alloc::Global;

/// Answers the line of the sketch of the set that the input lists.
pub fn make(alloc: Global, capacity: usize, input: &[u8]) -> Result<Report, OutOfMemory>
    requires { IsCapacity capacity }
    ensures { IfOk result (λ report. IsReportOf report (make_answer capacity (set_in input.now))) }
{
    let elements = match set_of(alloc, input) {
        Ok(elements) => elements,
        Err(ReadStop::Fault(fault)) => return fault_report(alloc, &fault),
        Err(ReadStop::OutOfMemory) => return Err(OutOfMemory),
    };
    let Ok(sketch) = Sketch::of(alloc, elements.as_slice(), capacity) else {
        return Err(OutOfMemory);
    };
    sketch_report(alloc, &sketch)
}
