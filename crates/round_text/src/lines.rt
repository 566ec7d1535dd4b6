//! The lines of a phase, of additions without room, and of a pool.

ghost use Rattle.std.specs.Prelude.{◌≡◌, ◌++◌, [], ◌∷◌, OnOk, codes, flat_map};
ghost use Rattle.std.specs.Fmt.{decimal};
ghost use Rattle.hex.specs.Hex.{encode_lower};
ghost use Rattle.line_rules.specs.Lines.{line};
ghost use Rattle.protocol_text_rules.specs.Ends as ends;
ghost use Rattle.protocol_text_rules.specs.Pairs as pairs;
ghost use Rattle.round_text.specs.Fronts.{side_words};

use crate::number::put_number;
use crate::words::{phase_text, side_text};
use base_types::{Hash32, OutOfMemory};
use pair_rules::Side;
use std::alloc::AllocError;
use wire_rules::Phase;

/// Puts the line of a side's phase behind what is there. On want of memory a part of it may stand there.
pub fn put_phase_line(out: &mut Vec<u8>, side: Side, phase: Phase) -> Result<(), OutOfMemory>
    ensures { OnOk result (out.new.items ≡ out.old.items ++ line (pairs.words_text (codes "phase" ∷ ends.side_text side ∷ ends.phase_text phase ∷ []))) }
{
    out.extend_from_slice(b"phase ")?;
    out.extend_from_slice(side_text(side))?;
    out.push(b' ')?;
    out.extend_from_slice(phase_text(phase))?;
    out.push(b'\n')?;
    Ok(())
}

/// Puts the line of how many additions found no room behind what is there, where some did. On want of memory a part of it
/// may stand there.
pub fn put_full_line(out: &mut Vec<u8>, full: u64) -> Result<(), OutOfMemory>
    ensures { OnOk result (out.new.items ≡ out.old.items ++ pairs.full_line full) }
{
    if full != 0 {
        put_number(out, b"full ", full)?;
        out.push(b'\n')?;
    }
    Ok(())
}

/// Puts the line of how many transactions a pool has behind what is there, with its side where one is told. On want of
/// memory a part of it may stand there.
pub fn put_pool_line(out: &mut Vec<u8>, side: Option<Side>, len: usize) -> Result<(), OutOfMemory>
    ensures { OnOk result (out.new.items ≡ out.old.items ++ line (pairs.words_text (codes "pool" ∷ (side_words side ++ decimal len ∷ [])))) }
{
    out.extend_from_slice(b"pool")?;
    if let Some(side) = side {
        out.push(b' ')?;
        out.extend_from_slice(side_text(side))?;
    }
    put_number(out, b" ", len)?;
    out.push(b'\n')?;
    Ok(())
}

/// Puts a line of 64 digits for each id behind what is there, the bytes in stored order. On want of memory a part of them
/// may stand there.
pub fn put_id_lines(out: &mut Vec<u8>, ids: &[Hash32]) -> Result<(), OutOfMemory>
    ensures { OnOk result (out.new.items ≡ out.old.items ++ flat_map (λ id. line (encode_lower id.0)) ids.now) }
{
    for id in ids {
        put_id(out, id)?;
    }
    Ok(())
}

fn put_id(out: &mut Vec<u8>, id: &Hash32) -> Result<(), AllocError>
    ensures { OnOk result (out.new.items ≡ out.old.items ++ line (encode_lower id.now.0)) }
{
    let mut digits = [0; 64];
    let _ = hex::encode_to_slice(id.0, &mut digits);
    out.extend_from_slice(&digits)?;
    out.push(b'\n')?;
    Ok(())
}
