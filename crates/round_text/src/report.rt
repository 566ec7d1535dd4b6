//! The lines of reports.

ghost use Rattle.std.specs.Prelude.{◌≡◌, ◌+◌, ◌^◌, ◌≤◌, ◌++◌, OnOk, length};
ghost use Rattle.line_rules.specs.Lines.{line};
ghost use Rattle.protocol_text_rules.specs.Pairs as pairs;
ghost use Rattle.round_text.specs.Fronts.{side_words};

use crate::number::put_number;
use crate::words::{ending_text, side_text};
use base_types::OutOfMemory;
use pair_rules::Side;
use pool_rules::Report;
use std::alloc::AllocError;

/// Puts a line for each report behind what is there, numbered from `first` on, and with the side in front where one is
/// told. On want of memory a part of them may stand there.
pub fn put_report_lines(
    out: &mut Vec<u8>,
    side: Option<Side>,
    first: u64,
    reports: &[Report],
) -> Result<(), OutOfMemory>
    requires { first + length reports.now ≤ 2 ^ 64 }
    ensures { OnOk result (out.new.items ≡ out.old.items ++ pairs.report_lines (side_words side) first reports.now) }
{
    for (index, report) in reports.iter().enumerate() {
        put_report(out, side, first + index as u64, report)?;
    }
    Ok(())
}

fn put_report(
    out: &mut Vec<u8>,
    side: Option<Side>,
    number: u64,
    report: &Report,
) -> Result<(), AllocError>
    ensures { OnOk result (out.new.items ≡ out.old.items ++ line (pairs.words_text (side_words side ++ pairs.report_words number report.now))) }
{
    if let Some(side) = side {
        out.extend_from_slice(side_text(side))?;
        out.push(b' ')?;
    }
    put_round(out, number, report)
}

/// The line of a report behind its side.
fn put_round(out: &mut Vec<u8>, number: u64, report: &Report) -> Result<(), AllocError>
    ensures { OnOk result (out.new.items ≡ out.old.items ++ line (pairs.words_text (pairs.report_words number report.now))) }
{
    put_number(out, b"round ", number)?;
    out.push(b' ')?;
    out.extend_from_slice(ending_text(report.ending))?;
    put_number(out, b" ", report.capacity)?;
    put_number(out, b" ", report.snapshot.as_slice().len())?;
    put_number(out, b" ", report.answered.as_slice().len())?;
    out.push(b'\n')?;
    Ok(())
}
