//! The command `decode`.

ghost use Rattle.std.specs.Prelude.{◌≡◌, IfOk, map};
ghost use Rattle.line_text.specs.Gives.{IsOutcome};
ghost use Rattle.sketch_text_rules.specs.Elements as elements;
ghost use Rattle.sketch_core.specs.Answered.{decoded_numbers};
ghost use Rattle.text_commands.specs.SketchLines.{sketch_in};
ghost use Rattle.text_commands.specs.Answers.{IsReportOf, decode_answer, set_answer};

use crate::faults::fault_report;
use crate::report::Report;
use crate::sketch_lines::{line_count, sketch_of};
use crate::status::Status;
use base_types::OutOfMemory;
use clmul_lanes::Lane32;
use field_core::Field;
use line_text::{ReadStop, TextLines};
use sketch_core::{Decoded, Sketch};
use std::alloc::{AllocError, Global};

/// Answers the set that has the sketch that the input lists.
pub fn decode(alloc: Global, input: &[u8]) -> Result<Report, OutOfMemory>
    ensures { IfOk result (λ report. IsReportOf report (decode_answer (sketch_in input.now))) }
{
    match only_sketch(alloc, input) {
        Ok(sketch) => set_report(alloc, &trace_roots::decode(alloc, &sketch)?),
        Err(ReadStop::Fault(fault)) => fault_report(alloc, &fault),
        Err(ReadStop::OutOfMemory) => Err(OutOfMemory),
    }
}

/// The one sketch that the text lists.
fn only_sketch(alloc: Global, text: &[u8]) -> Result<Sketch<Lane32>, ReadStop>
    ensures { IsOutcome (map ⟦<Lane32 as Field>⟧.bits_of) result (sketch_in text.now) }
{
    let mut lines = TextLines::of(text);
    let (Some(only), None) = (lines.next(), lines.next()) else {
        return Err(ReadStop::Fault(line_count(text)));
    };
    sketch_of(alloc, &only)
}

/// The lines of the set that was found, or that there is none, as an answer.
fn set_report(alloc: Global, decoded: &Decoded<Lane32>) -> Result<Report, OutOfMemory>
    ensures { IfOk result (λ report. IsReportOf report (set_answer (decoded_numbers ⟦<Lane32 as Field>⟧.bits_of decoded.now))) }
{
    match decoded {
        Decoded::Found(set) => Ok(Report {
            status: Status::Ok,
            text: set_text(alloc, set.as_slice())?,
        }),
        Decoded::NoSet => Ok(Report {
            status: Status::NoSet,
            text: b"no set\n".to_vec(alloc)?,
        }),
    }
}

/// The elements as lines, each of 8 digits, the most significant first.
fn set_text(alloc: Global, set: &[Lane32]) -> Result<Vec<u8>, AllocError>
    ensures { IfOk result (λ text. text.items ≡ elements.set_text (map ⟦<Lane32 as Field>⟧.bits_of set.now)) }
{
    let mut text = Vec::new(alloc);
    for element in set {
        let digits = hex::encode(alloc, element.get().to_be_bytes())?;
        text.extend_from_slice(digits.as_bytes())?;
        text.push(b'\n')?;
    }
    Ok(text)
}
