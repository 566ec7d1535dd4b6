//! The elements of a text, line by line.

ghost use Rattle.std.specs.Prelude.{◌≡◌, IfOk, IfSome, slice_get};
ghost use Rattle.line_rules.specs.Lines.{lines_of};
ghost use Rattle.sketch_text.specs.Readings.{elements_before, first_fault};

use crate::element::element_of;
use crate::plain::{LINE, plain_elements};
use base_types::TextFault;
use line_text::TextLines;
use std::alloc::{AllocError, Global};

/// What the lines of a text spell.
#[derive(Debug, Drop)]
pub(crate) struct Reading {
    /// The elements up to the first line that spells none, in order. They may repeat.
    pub(crate) numbers: Vec<u32>,
    /// The fault of the first line that spells no element.
    pub(crate) fault: Option<TextFault>,
}

/// The elements of the lines of `text`, up to the first line that spells none.
pub(crate) fn read(alloc: Global, text: &[u8]) -> Result<Reading, AllocError>
    ensures numbers { IfOk result (λ r. r.numbers.items ≡ elements_before (lines_of text.now)) }
    ensures fault { IfOk result (λ r. r.fault ≡ first_fault (lines_of text.now)) }
{
    let mut numbers = plain_elements(alloc, text)?;
    let plain = numbers.len();
    for line in TextLines::numbered_from(plain as u64 + 1, &text[LINE * plain..]) {
        match element_of(line.bytes) {
            Ok(number) => numbers.push(number)?,
            Err(kind) => {
                let fault = TextFault {
                    place: line.number,
                    kind,
                };
                return Ok(Reading {
                    numbers,
                    fault: Some(fault),
                });
            }
        }
    }
    Ok(Reading {
        numbers,
        fault: None,
    })
}

/// The number of the line at an index among those that aren't empty.
pub(crate) fn line_number(text: &[u8], index: usize) -> u64
    ensures { IfSome (slice_get (lines_of text.now) index) (λ l. result ≡ l.number) }
{
    match TextLines::of(text).nth(index) {
        Some(line) => line.number,
        None => 0,
    }
}
