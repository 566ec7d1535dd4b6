//! The command `merge`.

ghost use Rattle.std.specs.Prelude.{[], ◌∷◌, IfOk, map};
ghost use Rattle.line_text.specs.Views.{line_of};
ghost use Rattle.line_text.specs.Gives.{IsOutcome};
ghost use Rattle.text_commands.specs.SketchLines.{sum_in, sum_of_lines};
ghost use Rattle.text_commands.specs.Answers.{IsReportOf, merge_answer};

use crate::faults::fault_report;
use crate::report::{Report, sketch_report};
use crate::sketch_lines::{line_count, sketch_of};
use base_types::{Kind, OutOfMemory, TextFault};
use clmul_lanes::Lane32;
use field_core::Field;
use line_text::{ReadStop, TextLine, TextLines};
use sketch_core::Sketch;
use std::alloc::Global;

/// Answers the line of the sum of the two sketches that the input lists.
pub fn merge(alloc: Global, input: &[u8]) -> Result<Report, OutOfMemory>
    ensures { IfOk result (λ report. IsReportOf report (merge_answer (sum_in input.now))) }
{
    match sum_of(alloc, input) {
        Ok(sum) => sketch_report(alloc, &sum),
        Err(ReadStop::Fault(fault)) => fault_report(alloc, &fault),
        Err(ReadStop::OutOfMemory) => Err(OutOfMemory),
    }
}

/// The sum of the two sketches that the text lists.
fn sum_of(alloc: Global, text: &[u8]) -> Result<Sketch<Lane32>, ReadStop>
    ensures { IsOutcome (map ⟦<Lane32 as Field>⟧.bits_of) result (sum_in text.now) }
{
    let mut lines = TextLines::of(text);
    let (Some(first), Some(second), None) = (lines.next(), lines.next(), lines.next()) else {
        return Err(ReadStop::Fault(line_count(text)));
    };
    sum_of_two(alloc, &first, &second)
}

/// The sum of the sketches of two lines.
fn sum_of_two(
    alloc: Global,
    first: &TextLine,
    second: &TextLine,
) -> Result<Sketch<Lane32>, ReadStop>
    ensures { IsOutcome (map ⟦<Lane32 as Field>⟧.bits_of) result (sum_of_lines (line_of first.now ∷ line_of second.now ∷ [])) }
{
    let mut sum = sketch_of(alloc, first)?;
    let other = sketch_of(alloc, second)?;
    if sum.capacity() != other.capacity() {
        return Err(ReadStop::Fault(TextFault {
            place: second.number,
            kind: Kind::LengthsDiffer,
        }));
    }
    sum.merge_into(&other);
    Ok(sum)
}
