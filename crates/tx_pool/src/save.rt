//! A pool file, written.

ghost use Rattle.std.specs.Prelude.{◌≡◌, ◌++◌, OnOk};
ghost use Rattle.line_rules.specs.Lines as lines;
ghost use Rattle.pool_rules.specs.PoolFile as file;

use crate::heading::FORM;
use base_types::{Bytes, Hash32};
use std::alloc::{AllocError, Global};

/// The bytes of the longest heading, and its line end.
pub(crate) const HEADING_BYTES: usize = 13;

/// The bytes of a line beside the digits of its transaction: the digits of an id, a space and the line end.
pub(crate) const LINE_BYTES: usize = 66;

/// Writes the heading of `count` transactions behind `text`.
pub(crate) fn push_heading(text: &mut Vec<u8>, count: usize) -> Result<(), AllocError>
    ensures { OnOk result (text.new.items ≡ text.old.items ++ lines.line (file.heading count)) }
{
    let mut buffer = itoa::Buffer::new();
    text.extend_from_slice(FORM)?;
    text.extend_from_slice(buffer.format(count).as_bytes())?;
    text.push(b'\n')?;
    Ok(())
}

/// Writes the line of a transaction behind `text`.
pub(crate) fn push_line(
    alloc: Global,
    text: &mut Vec<u8>,
    id: &Hash32,
    tx: &Bytes,
) -> Result<(), AllocError>
    ensures { OnOk result (text.new.items ≡ text.old.items ++ lines.line (file.transaction_line (record { id = id.now; bytes = tx.now }))) }
{
    text.extend_from_slice(hex::encode(alloc, &id.0)?.as_bytes())?;
    text.push(b' ')?;
    text.extend_from_slice(hex::encode(alloc, tx.as_slice())?.as_bytes())?;
    text.push(b'\n')?;
    Ok(())
}
