//! The texts of ends, without a line end.

ghost use Rattle.std.specs.Prelude.{◌≡◌, ◌++◌, IfOk, OnOk, codes};
ghost use Rattle.std.specs.Fmt.{decimal, signed_decimal};
ghost use Rattle.line_rules.specs.Digits.{eight_digits};
ghost use Rattle.wire_rules.specs.Commands as commands;
ghost use Rattle.protocol_text_rules.specs.Ends as ends;

use crate::number::put_number;
use crate::words::{phase_text, side_text};
use base_types::OutOfMemory;
use command_names::word_of;
use fault_text::{frame_fault_text, payload_fault_text};
use node_rules::End;
use pair_rules::Side;
use std::alloc::{AllocError, Global};
use wire_rules::{FrameFault, Name, PayloadFault, Phase};

/// Why a node ended.
pub fn end_text(alloc: Global, end: &End) -> Result<Vec<u8>, OutOfMemory>
    ensures { IfOk result (λ text. text.items ≡ ends.end_text end.now) }
{
    let mut text = Vec::new(alloc);
    put_end(&mut text, end)?;
    Ok(text)
}

/// `refused`, and why a node ended.
pub fn refused_text(alloc: Global, end: &End) -> Result<Vec<u8>, OutOfMemory>
    ensures { IfOk result (λ text. text.items ≡ ends.refused_text end.now) }
{
    let mut text = b"refused ".to_vec(alloc)?;
    put_end(&mut text, end)?;
    Ok(text)
}

/// `refused`, which side of a pair ended, and why.
pub fn side_refused_text(alloc: Global, side: Side, end: &End) -> Result<Vec<u8>, OutOfMemory>
    ensures { IfOk result (λ text. text.items ≡ ends.side_refused_text side end.now) }
{
    let mut text = b"refused ".to_vec(alloc)?;
    text.extend_from_slice(side_text(side))?;
    text.push(b' ')?;
    put_end(&mut text, end)?;
    Ok(text)
}

/// `truncated`, and the phase in which an input ended.
pub fn truncated_text(alloc: Global, phase: Phase) -> Result<Vec<u8>, OutOfMemory>
    ensures { IfOk result (λ text. text.items ≡ ends.truncated_text phase) }
{
    let mut text = b"truncated ".to_vec(alloc)?;
    text.extend_from_slice(phase_text(phase))?;
    Ok(text)
}

#[tactic(auto, unfolding(protocol_text_rules::specs::Ends::end_text))]
fn put_end(out: &mut Vec<u8>, end: &End) -> Result<(), AllocError>
    ensures { OnOk result (out.new.items ≡ out.old.items ++ ends.end_text end.now) }
{
    match end {
        End::Frame(fault) => put_frame_fault(out, fault),
        End::Payload(fault) => put_payload_fault(out, fault),
        End::OldPeer(version) => put_version(out, *version),
        End::PeerNoRelay => out.extend_from_slice(b"peer no relay"),
        End::NoWtxidRelay => out.extend_from_slice(b"no wtxidrelay"),
        End::ZeroReconVersion => out.extend_from_slice(b"zero version"),
        End::Handshake { command } => put_command(out, b"handshake ", *command),
        End::Misplaced { command, phase } => put_misplaced(out, *command, *phase),
        End::SketchLength { len, wanted } => put_lengths(out, *len, *wanted),
        End::UnknownShortId(short) => put_short(out, b"unknown short id ", *short),
        End::AskRepeated(short) => put_short(out, b"ask repeated ", *short),
        End::AsksOnFailure(count) => put_number(out, b"asks on failure ", *count),
        End::PoolFull => out.extend_from_slice(b"pool full"),
    }
}

fn put_frame_fault(out: &mut Vec<u8>, fault: &FrameFault) -> Result<(), AllocError>
    ensures { OnOk result (out.new.items ≡ out.old.items ++ ends.frame_fault_text fault.now) }
{
    let text = frame_fault_text(*out.allocator(), fault)?;
    out.extend_from_slice(text.as_bytes())
}

fn put_payload_fault(out: &mut Vec<u8>, fault: &PayloadFault) -> Result<(), AllocError>
    ensures { OnOk result (out.new.items ≡ out.old.items ++ ends.payload_fault_text fault.now) }
{
    let text = payload_fault_text(*out.allocator(), fault)?;
    out.extend_from_slice(text.as_slice())
}

fn put_version(out: &mut Vec<u8>, version: i32) -> Result<(), AllocError>
    ensures { OnOk result (out.new.items ≡ out.old.items ++ (codes "old peer " ++ signed_decimal version)) }
{
    put_number(out, b"old peer ", version)
}

fn put_misplaced(out: &mut Vec<u8>, command: Name, phase: Phase) -> Result<(), AllocError>
    ensures { OnOk result (out.new.items ≡ out.old.items ++ (codes "misplaced " ++ commands.word_of command ++ codes " in " ++ ends.phase_text phase)) }
{
    put_command(out, b"misplaced ", command)?;
    out.extend_from_slice(b" in ")?;
    out.extend_from_slice(phase_text(phase))
}

/// The length of a sketch, and the one that is wanted.
fn put_lengths(out: &mut Vec<u8>, len: u64, wanted: u64) -> Result<(), AllocError>
    ensures { OnOk result (out.new.items ≡ out.old.items ++ (codes "sketch length " ++ decimal len ++ codes " wanted " ++ decimal wanted)) }
{
    put_number(out, b"sketch length ", len)?;
    put_number(out, b" wanted ", wanted)?;
    Ok(())
}

/// Words, and the word of a command.
fn put_command(out: &mut Vec<u8>, words: &[u8], command: Name) -> Result<(), AllocError>
    ensures { OnOk result (out.new.items ≡ out.old.items ++ (words.now ++ commands.word_of command)) }
{
    out.extend_from_slice(words)?;
    out.extend_from_slice(word_of(command))
}

/// Words, and the 8 digits of a short id, the most significant first.
fn put_short(out: &mut Vec<u8>, words: &[u8], short: u32) -> Result<(), AllocError>
    ensures { OnOk result (out.new.items ≡ out.old.items ++ (words.now ++ eight_digits short)) }
{
    let mut digits = [0; 8];
    let _ = hex::encode_to_slice(short.to_be_bytes(), &mut digits);
    out.extend_from_slice(words)?;
    out.extend_from_slice(&digits)
}
