//! Payloads that are known, and their faults.

use super::*;
use base_types::{Bytes, OutOfMemory, Shorts};
use std::alloc::Global;
use wire_rules::{Frame, FrameRef, Message, Name, PayloadFault, PayloadKind};

/// The command field of a word.
fn field(word: &[u8]) -> [u8; 12] {
    let mut command = [0; 12];
    for (to, from) in command.iter_mut().zip(word) {
        *to = *from;
    }
    command
}

/// The payload of the frame of what this frame says.
fn again(alloc: Global, command: [u8; 12], payload: &[u8]) -> Result<Frame, DecodeFault> {
    let message = decode_ref(alloc, &FrameRef { command, payload })?;
    if !is_within_limits(&message) {
        return Err(DecodeFault::OutOfMemory);
    }
    encode(alloc, &message).map_err(|_| DecodeFault::OutOfMemory)
}

#[test]
fn frames_are_those_of_their_messages(rt: HostRuntime) {
    let alloc = rt.alloc();
    for (word, payload) in [
        (
            b"version".as_slice(),
            b"\x80\x11\x01\0\0\0\0\0\0\0\0\0\x01\0\0\0\0\0\0\0aaaaaaaaaaaaaaaaaaaaaaaaaabbbbbbbbbbbbbbbbbbbbbbbbbb\x05\0\0\0\0\0\0\0\x09/erlay:1/\xfe\xff\xff\xff\x01".as_slice(),
        ),
        (
            b"version",
            b"\x80\x11\x01\0\0\0\0\0\0\0\0\0\xff\xff\xff\xff\xff\xff\xff\xffaaaaaaaaaaaaaaaaaaaaaaaaaabbbbbbbbbbbbbbbbbbbbbbbbbb\x05\0\0\0\0\0\0\0\0\0\0\0\0",
        ),
        (b"verack", b""),
        (b"wtxidrelay", b""),
        (b"sendtxrcncl", b"\x01\0\0\0\x01\0\0\0\0\0\0\0"),
        (b"reqrecon", b"\x64\0\0\x20"),
        (b"sketch", b"\x04\x03\0\0\0"),
        (b"sketch", b"\0"),
        (b"reqsketchext", b""),
        (b"reconcildiff", b"\x01\x02\x01\0\0\0\x02\0\0\0"),
        (b"reconcildiff", b"\0\0"),
        (b"inv", b"\x01\x05\0\0\0abcdefghijklmnopqrstuvwxyz012345"),
        (
            b"getdata",
            b"\x02\x05\0\0\0abcdefghijklmnopqrstuvwxyz012345\x01\0\0\xffabcdefghijklmnopqrstuvwxyz543210",
        ),
        (b"notfound", b"\0"),
        (b"tx", b"hello"),
        (b"ping", b"\x01\x02\x03\x04\x05\x06\x07\x08"),
        (b"pong", b"\0\0\0\0\0\0\0\0"),
        (b"feefilter", b"\x01\x02"),
        (b"a", b""),
    ] {
        let frame = again(alloc, field(word), payload).expect(&rt, "a message");
        assert_eq!(rt; frame.command, field(word));
        assert_eq!(rt; frame.payload.as_slice(), payload);
    }
}
