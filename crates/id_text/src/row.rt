//! An id and its short id as a line.

ghost use Rattle.std.specs.Prelude.{◌≡◌, ◌++◌, IfOk};
ghost use Rattle.line_rules.specs.Lines.{line};
ghost use Rattle.short_ids.specs.States.{pair_of};
ghost use Rattle.protocol_text_rules.specs.Works.{id_line};

use crate::id::DIGITS;
use base_types::Hash32;
use short_ids::{Keys, short_id};
use std::alloc::AllocError;

/// The number of bytes of a row: the digits of an id, a space, 8 digits and LF.
pub(crate) const ROW: usize = DIGITS + 10;

/// Adds the digits of an id, a space, the digits of its short id, the most significant first, and LF.
pub(crate) fn push_row(rows: &mut Vec<u8>, keys: &Keys, id: &Hash32) -> Result<(), AllocError>
    ensures { IfOk result (λ done. rows.new.items ≡ rows.old.items ++ line (id_line (pair_of keys.now) id.now)) }
{
    let mut digits = [0; DIGITS];
    let _ = hex::encode_to_slice(id.0, &mut digits);
    let mut short = [0; 8];
    let _ = hex::encode_to_slice(short_id(keys, id).to_be_bytes(), &mut short);
    rows.extend_from_slice(&digits)?;
    rows.push(b' ')?;
    rows.extend_from_slice(&short)?;
    rows.push(b'\n')?;
    Ok(())
}
