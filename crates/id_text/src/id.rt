//! The id that a line spells.

ghost use Rattle.std.specs.Prelude.{◌≡◌};
ghost use Rattle.protocol_text_rules.specs.Works as works;

use base_types::{Hash32, Kind};
use hex::FromHex;

/// The number of an id's digits.
pub(crate) const DIGITS: usize = 64;

/// The id that a line spells by 64 digits of either case, its bytes in stored order.
pub(crate) fn id_of(line: &[u8]) -> Result<Hash32, Kind>
    ensures { result ≡ works.id_of_line line.now }
{
    if line.len() != DIGITS {
        return Err(Kind::DigitCount);
    }
    match <[u8; 32] as FromHex>::from_hex(line) {
        Ok(bytes) => Ok(Hash32(bytes)),
        Err(_) => Err(Kind::BadDigit),
    }
}
