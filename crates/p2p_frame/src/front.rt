//! What unread bytes begin with.

ghost use Rattle.std.specs.Prelude.{◌≡◌};
ghost use Rattle.wire_rules.specs.Layout.{checksum};
ghost use Rattle.wire_rules.specs.Stream.{FaultyFrame, front_of};
ghost use Rattle.wire_rules.specs.declared.frame.FrameFault.{FrameFault};
ghost use Rattle.p2p_frame.specs.Fed.{IsFeeder};
ghost use Rattle.p2p_frame.specs.Feeding.{frame_in};
ghost use Rattle.p2p_frame.specs.Views.{owned_answer};

use crate::header::Header;
use sha2::{Digest, Sha256};
use wire_rules::{FrameFault, FrameRef, HEADER_LEN};

/// The first 4 bytes of the double SHA-256.
pub fn checksum_of(payload: &[u8]) -> [u8; 4]
    ensures { result ≡ checksum payload.now }
{
    let digest = Sha256::digest(Sha256::digest(payload));
    [digest[0], digest[1], digest[2], digest[3]]
}

/// The fault that was answered before, or else what stands in front of the bytes.
pub fn answer_in_front(
    magic: [u8; 4],
    place: u64,
    stop: Option<FrameFault>,
    bytes: &[u8],
) -> Result<Option<FrameRef<'_>>, FrameFault>
    requires { (fault : FrameFault) → stop ≡ Some fault → front_of magic place bytes.now ≡ FaultyFrame fault }
    ensures answer { owned_answer result ≡ frame_in (front_of magic place bytes.now) }
    ensures sound { IsFeeder (record { magic = magic; unread = bytes.now; place = place; stop = stop }) }
{
    match stop {
        Some(fault) => Err(fault),
        None => frame_in_front(magic, place, bytes),
    }
}

/// The frame that bytes begin with, none where they end before it does, or the fault in its place. The first byte has
/// the offset `place` in the whole stream. A payload is hashed only once all of it is there.
pub fn frame_in_front(
    magic: [u8; 4],
    place: u64,
    bytes: &[u8],
) -> Result<Option<FrameRef<'_>>, FrameFault>
    ensures { owned_answer result ≡ frame_in (front_of magic place bytes.now) }
{
    if bytes.len() < HEADER_LEN {
        return Ok(None);
    }
    let header = Header::read(bytes);
    if let Some(fault) = header.fault(magic, place) {
        return Err(fault);
    }
    let size = header.size as usize;
    let behind = bytes.split_at(HEADER_LEN).1;
    if behind.len() < size {
        return Ok(None);
    }
    let payload = &behind[..size];
    let computed = checksum_of(payload);
    if header.sum != computed {
        return Err(FrameFault::BadChecksum {
            at: place,
            stands: header.sum,
            computed,
        });
    }
    Ok(Some(FrameRef {
        command: header.command,
        payload,
    }))
}
