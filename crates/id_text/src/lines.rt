//! The rows of the ids that a text lists.

ghost use Rattle.line_text.specs.Gives.{IsOutcome};
ghost use Rattle.protocol_text_rules.specs.Works.{ids_in, ids_text, with_text};

use crate::id::{DIGITS, id_of};
use crate::row::{ROW, push_row};
use base_types::TextFault;
use line_text::{ReadStop, TextLines};
use short_ids::Keys;
use std::alloc::Global;

/// The lines of the ids that the text lists, a line each, with their short ids under the key of two salts, in the order
/// of the text. The first line that is no id is named.
pub fn ids_lines(alloc: Global, salt: u64, other: u64, text: &[u8]) -> Result<Vec<u8>, ReadStop>
    ensures { IsOutcome (λ rows. rows.items) result (with_text (ids_text salt other) (ids_in text.now)) }
{
    let keys = Keys::from_salts(salt, other);
    let mut rows = Vec::with_capacity(alloc, text.len() / DIGITS * ROW)?;
    for line in TextLines::of(text) {
        match id_of(line.bytes) {
            Ok(id) => push_row(&mut rows, &keys, &id)?,
            Err(kind) => {
                return Err(ReadStop::Fault(TextFault {
                    place: line.number,
                    kind,
                }));
            }
        }
    }
    Ok(rows)
}
