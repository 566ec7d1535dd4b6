//! What a peer sends, in lines.

use std::alloc::Global;
use std::process::Abort;
use stream_text::packed_frames;

/// The messages of a handshake. Both sides have this `version`, and each has a salt of its own.
pub(crate) const VERSION: &str =
    "version 70016 0 0 0000000000000000000000000000000000000000000000000000 0000000000000000000000000000000000000000000000000000 0 2f65726c61793a312f 0 1";

pub(crate) const WTXIDRELAY: &str = "wtxidrelay";

pub(crate) const VERACK: &str = "verack";

/// What the peer offers, and what the node does.
pub(crate) const OFFER: &str = "sendtxrcncl 1 0000000000000003";

pub(crate) const OPENER_OFFER: &str = "sendtxrcncl 2 0000000000000001";

pub(crate) const ACCEPTER_OFFER: &str = "sendtxrcncl 2 0000000000000002";

/// What a peer says first.
pub(crate) const GREETING: &[&str] = &[VERSION, WTXIDRELAY, OFFER, VERACK];

/// The `version` of an old peer, and of one that asks for no transactions.
pub(crate) const OLD_VERSION: &str =
    "version 70015 0 0 0000000000000000000000000000000000000000000000000000 0000000000000000000000000000000000000000000000000000 0 2f65726c61793a312f 0 0";

pub(crate) const NO_RELAY: &str =
    "version 70016 0 0 0000000000000000000000000000000000000000000000000000 0000000000000000000000000000000000000000000000000000 0 2f65726c61793a312f 0 0";

/// Lines, each with LF.
pub(crate) fn text_of(rt: &impl Abort, alloc: Global, lines: &[&str]) -> Vec<u8> {
    let mut text = Vec::new(alloc);
    for line in lines {
        text.extend_from_slice(line.as_bytes()).expect(rt, "memory");
        text.push(b'\n').expect(rt, "memory");
    }
    text
}

/// The frames of the messages that lines show.
pub(crate) fn frames_of(rt: &impl Abort, alloc: Global, lines: &[&str]) -> Vec<u8> {
    let text = text_of(rt, alloc, lines);
    packed_frames(alloc, text.as_slice()).expect(rt, "lines of messages")
}
