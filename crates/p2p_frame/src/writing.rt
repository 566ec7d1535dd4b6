//! Frames into bytes.

ghost use Rattle.std.specs.Prelude.{◌≡◌, ◌↔◌, IsTrue, ◌+◌, ◌≤◌, ◌++◌, is_ok, if◌then◌else◌, length, nat_le, vec_len, vec_capacity};
ghost use Rattle.id_rules.specs.Bytes.{are_bytes};
ghost use Rattle.wire_rules.specs.Layout.{frame_bytes};
ghost use Rattle.wire_rules.specs.Lent.{lent_frame};
ghost use Rattle.wire_rules.specs.Limits.{IsFrame};

use crate::front::checksum_of;
use crate::header::is_command_field;
use base_types::OutOfMemory;
use wire_rules::{Frame, FrameRef, HEADER_LEN, PAYLOAD_LIMIT};

/// Whether a frame may be sent: its command is printable bytes, at least one, and then NUL, and its payload is within the
/// limit.
pub fn is_frame(frame: &FrameRef<'_>) -> bool
    ensures { IsTrue result ↔ IsFrame (lent_frame frame.now) }
{
    is_command_field(&frame.command) && is_payload(frame.payload)
}

/// Whether so many bytes may be a payload.
fn is_payload(payload: &[u8]) -> bool
    ensures limit { result ≡ nat_le (length payload.now) PAYLOAD_LIMIT }
    ensures bytes { IsTrue (are_bytes payload.now) }
{
    payload.len() <= PAYLOAD_LIMIT
}

/// Appends a frame in a network's stream. Where memory runs out, `out` stays as it is.
pub fn write_frame(magic: [u8; 4], frame: &Frame, out: &mut Vec<u8>) -> Result<(), OutOfMemory>
    requires { IsFrame frame.now }
    ensures { out.new.items ≡ (if is_ok result then out.old.items ++ frame_bytes magic frame.now else out.old.items) }
{
    let lent = FrameRef {
        command: frame.command,
        payload: frame.payload.as_slice(),
    };
    write_lent_frame(magic, &lent, out)
}

/// Appends a frame whose payload is lent. Where memory runs out, `out` stays as it is.
pub fn write_lent_frame(
    magic: [u8; 4],
    frame: &FrameRef<'_>,
    out: &mut Vec<u8>,
) -> Result<(), OutOfMemory>
    requires { IsFrame (lent_frame frame.now) }
    ensures { out.new.items ≡ (if is_ok result then out.old.items ++ frame_bytes magic (lent_frame frame.now) else out.old.items) }
{
    let size = frame.payload.len();
    out.reserve(HEADER_LEN + size)?;
    let sum = checksum_of(frame.payload);
    append(out, &magic);
    append(out, &frame.command);
    append(out, &(size as u32).to_le_bytes());
    append(out, &sum);
    append(out, frame.payload);
    Ok(())
}

/// Appends bytes for which there is room.
fn append(out: &mut Vec<u8>, bytes: &[u8])
    requires { vec_len out.old + length bytes.now ≤ vec_capacity out.old }
    ensures items { out.new.items ≡ out.old.items ++ bytes.now }
    ensures len { vec_len out.new ≡ vec_len out.old + length bytes.now }
    ensures capacity { vec_capacity out.old ≤ vec_capacity out.new }
{
    let Ok(()) = out.extend_from_slice(bytes) else {
        unreachable!()
    };
}
