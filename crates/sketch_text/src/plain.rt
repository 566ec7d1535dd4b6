//! Elements on plain lines: 8 digits and LF, as most texts have them.

ghost use Rattle.std.specs.Prelude.{◌≡◌, ℕ, ◌+◌, ◌*◌, ◌^◌, ◌<◌, ◌≤◌, ◌++◌, IfOk, IfSome, Ok, drop, length, vec_len, unwrap_or};
ghost use Rattle.hex.specs.Hex.{hex_digit_value, pair_value};
ghost use Rattle.line_rules.specs.Lines.{lines, lines_of, numbered_lines};
ghost use Rattle.sketch_text.specs.Readings.{IsPlain, elements_before, first_fault};

use crate::element::DIGITS;
use std::alloc::{AllocError, Global};

/// The number of a plain line's bytes, with its end.
pub(crate) const LINE: usize = DIGITS + 1;

/// The value of a byte that is no digit: above the sum of any four bytes.
const NO_DIGIT: u32 = 4096;

/// The value of each byte as a digit of either case.
static VALUES: [u16; 256] = [
    4096, 4096, 4096, 4096, 4096, 4096, 4096, 4096, 4096, 4096, 4096, 4096, 4096, 4096, 4096, 4096,
    4096, 4096, 4096, 4096, 4096, 4096, 4096, 4096, 4096, 4096, 4096, 4096, 4096, 4096, 4096, 4096,
    4096, 4096, 4096, 4096, 4096, 4096, 4096, 4096, 4096, 4096, 4096, 4096, 4096, 4096, 4096, 4096,
    0, 1, 2, 3, 4, 5, 6, 7, 8, 9, 4096, 4096, 4096, 4096, 4096, 4096, 4096, 10, 11, 12, 13, 14, 15,
    4096, 4096, 4096, 4096, 4096, 4096, 4096, 4096, 4096, 4096, 4096, 4096, 4096, 4096, 4096, 4096,
    4096, 4096, 4096, 4096, 4096, 4096, 4096, 4096, 4096, 4096, 10, 11, 12, 13, 14, 15, 4096, 4096,
    4096, 4096, 4096, 4096, 4096, 4096, 4096, 4096, 4096, 4096, 4096, 4096, 4096, 4096, 4096, 4096,
    4096, 4096, 4096, 4096, 4096, 4096, 4096, 4096, 4096, 4096, 4096, 4096, 4096, 4096, 4096, 4096,
    4096, 4096, 4096, 4096, 4096, 4096, 4096, 4096, 4096, 4096, 4096, 4096, 4096, 4096, 4096, 4096,
    4096, 4096, 4096, 4096, 4096, 4096, 4096, 4096, 4096, 4096, 4096, 4096, 4096, 4096, 4096, 4096,
    4096, 4096, 4096, 4096, 4096, 4096, 4096, 4096, 4096, 4096, 4096, 4096, 4096, 4096, 4096, 4096,
    4096, 4096, 4096, 4096, 4096, 4096, 4096, 4096, 4096, 4096, 4096, 4096, 4096, 4096, 4096, 4096,
    4096, 4096, 4096, 4096, 4096, 4096, 4096, 4096, 4096, 4096, 4096, 4096, 4096, 4096, 4096, 4096,
    4096, 4096, 4096, 4096, 4096, 4096, 4096, 4096, 4096, 4096, 4096, 4096, 4096, 4096, 4096, 4096,
    4096, 4096, 4096, 4096, 4096, 4096, 4096, 4096, 4096, 4096, 4096, 4096, 4096, 4096, 4096, 4096,
    4096, 4096, 4096, 4096, 4096, 4096, 4096,
];

fn value_of(byte: u8) -> u32
    ensures value { result ≡ unwrap_or (hex_digit_value byte) 4096 }
    ensures small { result < 65536 }
{
    u32::from(VALUES[byte as usize])
}

/// The byte of two digits. Where one is no digit, at least `NO_DIGIT`.
fn pair_of(high: u8, low: u8) -> u32
    ensures read { result < 4096 → (i : ℕ) → pair_value high low i ≡ Ok result }
    ensures byte { result < 4096 → result < 256 }
    ensures small { result < 2 ^ 21 }
{
    value_of(high) * 16 + value_of(low)
}

/// The element of the first line, where that is a plain one.
fn plain_element(text: &[u8]) -> Option<u32>
    ensures { IfSome result (λ e. IsPlain text.now e) }
{
    let [a, b, c, d, e, f, g, h, b'\n', ..] = text else {
        return None;
    };
    let (first, second) = (pair_of(*a, *b), pair_of(*c, *d));
    let (third, last) = (pair_of(*e, *f), pair_of(*g, *h));
    // one test for all, since a branch for each digit is often taken unforeseen
    if first + second + third + last >= NO_DIGIT {
        return None;
    }
    match u32::from_be_bytes([first as u8, second as u8, third as u8, last as u8]) {
        0 => None,
        element => Some(element),
    }
}

/// The elements of the plain lines that the text begins with.
pub(crate) fn plain_elements(alloc: Global, text: &[u8]) -> Result<Vec<u32>, AllocError>
    ensures within { IfOk result (λ es. 9 * vec_len es ≤ length text.now) }
    ensures numbers { IfOk result (λ es. elements_before (lines_of text.now) ≡ es.items ++ elements_before (numbered_lines (vec_len es + 1) (lines (drop (9 * vec_len es) text.now)))) }
    ensures fault { IfOk result (λ es. first_fault (lines_of text.now) ≡ first_fault (numbered_lines (vec_len es + 1) (lines (drop (9 * vec_len es) text.now)))) }
{
    let mut numbers = Vec::with_capacity(alloc, text.len() / LINE)?;
    let mut at = 0;
    while let Some(number) = plain_element(&text[at..]) {
        numbers.push(number)?;
        at += LINE;
    }
    Ok(numbers)
}
