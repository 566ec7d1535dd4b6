//! The lines of a stream's messages.

ghost use Rattle.std.specs.Prelude.{◌≡◌, ◌<◌, ◌++◌, OnOk, IfErr, length};
ghost use Rattle.line_rules.specs.Lines.{line};
ghost use Rattle.wire_rules.specs.Shown.{message_text};
ghost use Rattle.protocol_text_rules.specs.Works.{messages_in};
ghost use Rattle.stream_text.specs.Outcomes.{IsFirst, IsShowing, shown_lines, stop_of};

use crate::stop::ShowStop;
use p2p_frame::frame_in_front;
use protocol_text_rules::{MAIN_MAGIC, StreamKind};
use recon_messages::{DecodeFault, decode_ref};
use shown_messages::show_into;
use std::alloc::Global;
use wire_rules::{HEADER_LEN, Message};

/// The lines of the messages of a main network's stream, in order, each with LF, or the first fault of the stream.
pub fn shown_text(alloc: Global, bytes: &[u8]) -> Result<Vec<u8>, ShowStop>
    ensures { IsShowing (λ text. text.items) (shown_lines (messages_in bytes.now)) result }
{
    let mut text = Vec::new(alloc);
    let mut rest = bytes;
    let mut offset = 0u64;
    while !rest.is_empty() {
        let (message, size) = first_message(alloc, offset, rest)?;
        put_line(&mut text, message)?;
        rest = rest.split_at(size).1;
        offset = offset.saturating_add(size as u64);
    }
    Ok(text)
}

/// The message in front, and how many bytes its frame has.
fn first_message(alloc: Global, offset: u64, bytes: &[u8]) -> Result<(Message, usize), ShowStop>
    requires { 0 < length bytes.now }
    ensures { IsFirst offset bytes.now result }
{
    match frame_in_front(MAIN_MAGIC, offset, bytes) {
        Ok(Some(frame)) => match decode_ref(alloc, &frame) {
            Ok(message) => Ok((message, HEADER_LEN + frame.payload.len())),
            Err(fault) => Err(payload_stop(offset, fault)),
        },
        Ok(None) => Err(ShowStop::Fault {
            offset,
            kind: StreamKind::CutShort,
        }),
        Err(fault) => Err(ShowStop::Fault {
            offset,
            kind: StreamKind::Frame(fault),
        }),
    }
}

/// Why a stream with a frame at this offset that isn't decoded isn't shown.
fn payload_stop(offset: u64, fault: DecodeFault) -> ShowStop
    ensures { result ≡ stop_of offset fault }
{
    match fault {
        DecodeFault::Payload(fault) => ShowStop::Fault {
            offset,
            kind: StreamKind::Payload(fault),
        },
        DecodeFault::OutOfMemory => ShowStop::OutOfMemory,
    }
}

/// Puts the line of a message, with LF, behind what is there.
fn put_line(text: &mut Vec<u8>, message: Message) -> Result<(), ShowStop>
    ensures ok { OnOk result (text.new.items ≡ text.old.items ++ line (message_text message)) }
    ensures err { IfErr result (λ stop. stop ≡ ShowStop.OutOfMemory) }
{
    show_into(text, &message)?;
    text.push(b'\n')?;
    Ok(())
}
