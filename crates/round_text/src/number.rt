//! Numbers behind words.

ghost use Rattle.std.specs.Prelude.{◌≡◌, ◌++◌, OnOk};

use itoa::{Buffer, Integer};
use std::alloc::AllocError;

/// Words, and a number in decimal digits.
pub(crate) fn put_number<I: Integer>(
    out: &mut Vec<u8>,
    words: &[u8],
    number: I,
) -> Result<(), AllocError>
    ensures { OnOk result (out.new.items ≡ out.old.items ++ (words.now ++ I.text number)) }
{
    let mut buffer = Buffer::new();
    out.extend_from_slice(words)?;
    out.extend_from_slice(buffer.format(number).as_bytes())
}
