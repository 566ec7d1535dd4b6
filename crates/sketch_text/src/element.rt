//! The element that a line spells.

ghost use Rattle.std.specs.Prelude.{◌≡◌};
ghost use Rattle.sketch_text_rules.specs.Elements as spec;

use base_types::Kind;
use hex::FromHex;

/// The number of an element's digits.
pub(crate) const DIGITS: usize = 8;

/// The element that a line spells by 8 digits of either case, the most significant first.
pub fn element_of(line: &[u8]) -> Result<u32, Kind>
    ensures { result ≡ spec.element_of line.now }
{
    if line.len() != DIGITS {
        return Err(Kind::DigitCount);
    }
    let Ok(bytes) = <[u8; 4] as FromHex>::from_hex(line) else {
        return Err(Kind::BadDigit);
    };
    match u32::from_be_bytes(bytes) {
        0 => Err(Kind::Zero),
        element => Ok(element),
    }
}
