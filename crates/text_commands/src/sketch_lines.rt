//! The sketches of lines of text.

ghost use Rattle.std.specs.Prelude.{◌≡◌, length, map};
ghost use Rattle.base_types.specs.declared.text.Kind.TheVariants.{LineCount};
ghost use Rattle.line_rules.specs.Lines.{lines_of};
ghost use Rattle.line_rules.specs.Reading.{after_line};
ghost use Rattle.line_text.specs.Views.{line_of};
ghost use Rattle.line_text.specs.Gives.{IsOutcome};
ghost use Rattle.text_commands.specs.SketchLines.{sketch_of_line};
ghost use Rattle.text_commands.specs.SketchLines as spec;

use base_types::{Kind, TextFault};
use clmul_lanes::Lane32;
use field_core::Field;
use line_text::{ReadStop, TextLine, count};
use sketch_bytes::{BytesFault, LineFault, from_line};
use sketch_core::Sketch;
use std::alloc::Global;

/// The sketch of a line.
pub fn sketch_of(alloc: Global, line: &TextLine) -> Result<Sketch<Lane32>, ReadStop>
    ensures { IsOutcome (map ⟦<Lane32 as Field>⟧.bits_of) result (after_line (line_of line.now) (sketch_of_line line.now.bytes.now) (λ sums. Ok sums)) }
{
    match from_line(alloc, line.bytes) {
        Ok(sketch) => Ok(sketch),
        Err(LineFault::Bytes(BytesFault::OutOfMemory)) => Err(ReadStop::OutOfMemory),
        Err(fault) => Err(ReadStop::Fault(TextFault {
            place: line.number,
            kind: kind_of(fault),
        })),
    }
}

/// The fault of a text that has not as many lines as the command reads.
pub fn line_count(text: &[u8]) -> TextFault
    ensures { result ≡ record { place = length (lines_of text.now); kind = LineCount } }
{
    TextFault {
        place: count(text),
        kind: Kind::LineCount,
    }
}

/// What is wrong with a line that is no sketch.
fn kind_of(fault: LineFault) -> Kind
    ensures { result ≡ spec.kind_of fault }
{
    match fault {
        LineFault::OddDigits => Kind::OddDigits,
        LineFault::BadDigit(_) => Kind::BadDigit,
        LineFault::Bytes(BytesFault::RaggedLength(len)) => Kind::RaggedLength(len),
        LineFault::Bytes(BytesFault::TooWide(len)) => Kind::TooWide(len),
        LineFault::Bytes(BytesFault::EmptySketch | BytesFault::OutOfMemory) => Kind::LineCount,
    }
}
