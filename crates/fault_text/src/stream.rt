//! The texts of faults of a stream of frames.

ghost use Rattle.std.specs.Prelude.{◌≡◌, IfOk};
ghost use Rattle.std.specs.String.{string_bytes};
ghost use Rattle.line_rules.specs.Lines.{line};
ghost use Rattle.protocol_text_rules.specs.Ends as ends;

use command_names::word_of;
use protocol_text_rules::StreamKind;
use std::alloc::{AllocError, Global};
use wire_rules::{FrameFault, PayloadFault, PayloadKind};

/// Why a stream has no frame. Checksums are 8 digits, in stored order.
#[tactic(auto, unfolding(protocol_text_rules::specs::Ends::frame_fault_text))]
pub fn frame_fault_text(alloc: Global, fault: &FrameFault) -> Result<String, AllocError>
    ensures { IfOk result (λ text. string_bytes text ≡ ends.frame_fault_text fault.now) }
{
    match fault {
        FrameFault::BadMagic { at } => format!(in alloc; "bad magic at {at}"),
        FrameFault::BadCommand { at } => format!(in alloc; "bad command at {at}"),
        FrameFault::TooLong { at, len } => format!(in alloc; "too long at {at}: {len}"),
        FrameFault::BadChecksum {
            at,
            stands,
            computed,
        } => {
            let stands = hex::encode(alloc, *stands)?;
            let computed = hex::encode(alloc, *computed)?;
            format!(in alloc; "bad checksum at {at}: {stands} not {computed}")
        }
    }
}

/// What is wrong with a payload, in words.
#[tactic(auto, unfolding(protocol_text_rules::specs::Ends::payload_kind_text))]
fn payload_kind_text(kind: PayloadKind) -> &'static [u8]
    ensures { result.now ≡ ends.payload_kind_text kind }
{
    match kind {
        PayloadKind::Short => b"short",
        PayloadKind::Trailing => b"trailing",
        PayloadKind::NotMinimal => b"not minimal",
        PayloadKind::TooMany => b"too many",
        PayloadKind::BadFlag => b"bad flag",
    }
}

/// Why a frame's payload is no message.
pub fn payload_fault_text(alloc: Global, fault: &PayloadFault) -> Result<Vec<u8>, AllocError>
    ensures { IfOk result (λ text. text.items ≡ ends.payload_fault_text fault.now) }
{
    let mut text = b"payload of ".to_vec(alloc)?;
    text.extend_from_slice(word_of(fault.command))?;
    let at = fault.at;
    let place = format!(in alloc; " at {at}: ")?;
    text.extend_from_slice(place.as_bytes())?;
    text.extend_from_slice(payload_kind_text(fault.kind))?;
    Ok(text)
}

/// Why a stream wasn't read to its end.
#[tactic(auto, unfolding(protocol_text_rules::specs::Ends::stream_kind_text))]
fn stream_kind_text(alloc: Global, kind: &StreamKind) -> Result<Vec<u8>, AllocError>
    ensures { IfOk result (λ text. text.items ≡ ends.stream_kind_text kind.now) }
{
    match kind {
        StreamKind::Frame(fault) => Ok(frame_fault_text(alloc, fault)?.into_bytes()),
        StreamKind::Payload(fault) => payload_fault_text(alloc, fault),
        StreamKind::CutShort => b"cut short".to_vec(alloc),
    }
}

/// The line of a fault of a stream: `bad input`, the offset of its frame's first byte in decimal digits, and what is
/// wrong.
pub fn bad_stream_line(alloc: Global, offset: u64, kind: &StreamKind) -> Result<Vec<u8>, AllocError>
    ensures { IfOk result (λ text. text.items ≡ line (ends.bad_stream_text offset kind.now)) }
{
    let kind = stream_kind_text(alloc, kind)?;
    let mut text = format!(in alloc; "bad input {offset}: ")?.into_bytes();
    text.extend_from_slice(kind.as_slice())?;
    text.push(b'\n')?;
    Ok(text)
}
