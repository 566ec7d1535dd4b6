//! Parts of payloads, put behind the bytes that are there.

ghost use Rattle.std.specs.Prelude.{◌≡◌, ◌++◌, OnOk, flat_map};
ghost use Rattle.std.specs.Int.{w32, to_le_bytes};
ghost use Rattle.wire_rules.specs.Layout as layout;

use std::alloc::AllocError;
use wire_rules::InvEntry;

/// A count, as a CompactSize.
#[tactic(auto, unfolding(wire_rules::specs::Layout::compact_size))]
pub(crate) fn put_count(out: &mut Vec<u8>, count: usize) -> Result<(), AllocError>
    ensures { OnOk result (out.new.items ≡ out.old.items ++ layout.compact_size count) }
{
    if count < 0xFD {
        out.extend_from_slice(&[count as u8])
    } else if count < 0x1_0000 {
        out.push(0xFD)?;
        out.extend_from_slice(&(count as u16).to_le_bytes())
    } else if count < 0x1_0000_0000 {
        out.push(0xFE)?;
        out.extend_from_slice(&(count as u32).to_le_bytes())
    } else {
        out.push(0xFF)?;
        out.extend_from_slice(&(count as u64).to_le_bytes())
    }
}

/// Bytes behind their count.
pub(crate) fn put_counted(out: &mut Vec<u8>, bytes: &[u8]) -> Result<(), AllocError>
    ensures { OnOk result (out.new.items ≡ out.old.items ++ layout.counted_bytes bytes.now) }
{
    put_count(out, bytes.len())?;
    out.extend_from_slice(bytes)
}

/// A byte that may be absent.
pub(crate) fn put_optional(out: &mut Vec<u8>, byte: Option<u8>) -> Result<(), AllocError>
    ensures { OnOk result (out.new.items ≡ out.old.items ++ layout.optional_byte byte) }
{
    match byte {
        Some(byte) => out.extend_from_slice(&[byte]),
        None => Ok(()),
    }
}

/// Entries in a row.
pub(crate) fn put_entries(out: &mut Vec<u8>, entries: &[InvEntry]) -> Result<(), AllocError>
    ensures { OnOk result (out.new.items ≡ out.old.items ++ flat_map layout.entry_bytes entries.now) }
{
    for entry in entries {
        out.extend_from_slice(&entry.kind.to_le_bytes())?;
        out.extend_from_slice(&entry.id.0)?;
    }
    Ok(())
}

/// Short ids in a row.
pub(crate) fn put_shorts(out: &mut Vec<u8>, shorts: &[u32]) -> Result<(), AllocError>
    ensures { OnOk result (out.new.items ≡ out.old.items ++ flat_map (to_le_bytes w32) shorts.now) }
{
    for short in shorts {
        out.extend_from_slice(&short.to_le_bytes())?;
    }
    Ok(())
}
