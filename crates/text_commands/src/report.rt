//! What a run is to write, and how it is to end.

ghost use Rattle.std.specs.Prelude.{ℕ, List, ◌≡◌, IfOk, map};
ghost use Rattle.line_rules.specs.Lines.{line};
ghost use Rattle.sketch_text_rules.specs.Faults.{read_fault_text, out_of_memory_text};
ghost use Rattle.text_commands.specs.Answers.{IsReportOf, sketch_answer};
ghost use Rattle.text_commands.specs.Stops.{text_of, status_of};

use crate::status::Status;
use base_types::OutOfMemory;
use clmul_lanes::Lane32;
use field_core::Field;
use sketch_bytes::to_line;
use sketch_core::Sketch;
use sketch_text_rules::INPUT_LIMIT;
use std::alloc::Global;

/// The text of a command's answer, and its status.
#[derive(Drop)]
pub struct Report {
    pub status: Status,
    pub text: Vec<u8>,
}

/// The line of a sketch, as an answer.
pub fn sketch_report(alloc: Global, sketch: &Sketch<Lane32>) -> Result<Report, OutOfMemory>
    ensures { IfOk result (λ report. IsReportOf report (sketch_answer (map ⟦<Lane32 as Field>⟧.bits_of sketch.now))) }
{
    let digits = to_line(alloc, sketch)?;
    let mut text = digits.as_slice().to_vec(alloc)?;
    text.push(b'\n')?;
    Ok(Report {
        status: Status::Ok,
        text,
    })
}

/// Why a command gave no answer of its own. The texts are fixed, and take no memory.
#[derive(Clone, Copy, Debug, PartialEq, Eq)]
pub enum Stop {
    Usage,
    ReadFault,
    TooLong,
    OutOfMemory,
}

impl Stop {
    /// The text to write, with its line end.
    pub fn text(self) -> &'static [u8]
        ensures { result.now ≡ text_of self }
    {
        match self {
            Stop::Usage => b"usage\n",
            Stop::ReadFault => b"read fault\n",
            Stop::TooLong => b"too long 67108864\n",
            Stop::OutOfMemory => b"out of memory\n",
        }
    }

    pub fn status(self) -> Status
        ensures { result ≡ status_of self }
    {
        match self {
            Stop::Usage => Status::Usage,
            Stop::ReadFault => Status::ReadFault,
            Stop::TooLong => Status::TooLong(INPUT_LIMIT as u64),
            Stop::OutOfMemory => Status::OutOfMemory,
        }
    }
}
