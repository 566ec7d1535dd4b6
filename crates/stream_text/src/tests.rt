//! Each kind of message, from its line to its frame and back.

ghost use Rattle.std.specs.Prelude.{◌<◌};

use super::*;
use p2p_frame::{Feeder, is_frame, write_lent_frame};
use protocol_text_rules::MAIN_MAGIC;
use recon_messages::{decode_frame, encode, is_within_limits};
use shown_messages::show;
use shown_reading::read_shown;
use std::alloc::Global;
use std::test::Fail;
use wire_rules::FrameRef;

/// Lines of all kinds of messages, and their frames.
const MESSAGES: &[(&[u8], &[u8])] = &[
    (
        b"version 70016 0 1 6161616161616161616161616161616161616161616161616161 6262626262626262626262626262626262626262626262626262 5 2f65726c61793a312f -2 1",
        b"\xf9\xbe\xb4\xd9version\x00\x00\x00\x00\x00_\x00\x00\x00\x83\xf4e\x1c\x80\x11\x01\x00\x00\x00\x00\x00\x00\x00\x00\x00\x01\x00\x00\x00\x00\x00\x00\x00aaaaaaaaaaaaaaaaaaaaaaaaaabbbbbbbbbbbbbbbbbbbbbbbbbb\x05\x00\x00\x00\x00\x00\x00\x00\x09/erlay:1/\xfe\xff\xff\xff\x01",
    ),
    (
        b"verack",
        b"\xf9\xbe\xb4\xd9verack\x00\x00\x00\x00\x00\x00\x00\x00\x00\x00]\xf6\xe0\xe2",
    ),
    (
        b"wtxidrelay",
        b"\xf9\xbe\xb4\xd9wtxidrelay\x00\x00\x00\x00\x00\x00]\xf6\xe0\xe2",
    ),
    (
        b"sendtxrcncl 1 0123456789abcdef",
        b"\xf9\xbe\xb4\xd9sendtxrcncl\x00\x0c\x00\x00\x00`\x8cR\x90\x01\x00\x00\x00\xef\xcd\xab\x89gE#\x01",
    ),
    (
        b"reqrecon 100 8192",
        b"\xf9\xbe\xb4\xd9reqrecon\x00\x00\x00\x00\x04\x00\x00\x00\xdf\xd1J\xb5d\x00\x00 ",
    ),
    (
        b"sketch 03000000",
        b"\xf9\xbe\xb4\xd9sketch\x00\x00\x00\x00\x00\x00\x05\x00\x00\x00\x8e\xad\xc1\xcc\x04\x03\x00\x00\x00",
    ),
    (
        b"reqsketchext",
        b"\xf9\xbe\xb4\xd9reqsketchext\x00\x00\x00\x00]\xf6\xe0\xe2",
    ),
    (
        b"reconcildiff 1 00000001 1234abcd",
        b"\xf9\xbe\xb4\xd9reconcildiff\n\x00\x00\x00df\x90H\x01\x02\x01\x00\x00\x00\xcd\xab4\x12",
    ),
    (
        b"inv 5:6162636465666768696a6b6c6d6e6f707172737475767778797a303132333435",
        b"\xf9\xbe\xb4\xd9inv\x00\x00\x00\x00\x00\x00\x00\x00\x00%\x00\x00\x00w\xbd]\xa4\x01\x05\x00\x00\x00abcdefghijklmnopqrstuvwxyz012345",
    ),
    (
        b"getdata 5:6162636465666768696a6b6c6d6e6f707172737475767778797a303132333435 1:3534333231307a797877767574737271706f6e6d6c6b6a696867666564636261",
        b"\xf9\xbe\xb4\xd9getdata\x00\x00\x00\x00\x00I\x00\x00\x00\xde\x92\x11\xad\x02\x05\x00\x00\x00abcdefghijklmnopqrstuvwxyz012345\x01\x00\x00\x00543210zyxwvutsrqponmlkjihgfedcba",
    ),
    (
        b"notfound 4278190081:3534333231307a797877767574737271706f6e6d6c6b6a696867666564636261",
        b"\xf9\xbe\xb4\xd9notfound\x00\x00\x00\x00%\x00\x00\x00\xd5g\x80\xd3\x01\x01\x00\x00\xff543210zyxwvutsrqponmlkjihgfedcba",
    ),
    (
        b"tx 68656c6c6f",
        b"\xf9\xbe\xb4\xd9tx\x00\x00\x00\x00\x00\x00\x00\x00\x00\x00\x05\x00\x00\x00\x95\x95\xc9\xdfhello",
    ),
    (
        b"ping 1",
        b"\xf9\xbe\xb4\xd9ping\x00\x00\x00\x00\x00\x00\x00\x00\x08\x00\x00\x00\x08S?k\x01\x00\x00\x00\x00\x00\x00\x00",
    ),
    (
        b"pong 18446744073709551615",
        b"\xf9\xbe\xb4\xd9pong\x00\x00\x00\x00\x00\x00\x00\x00\x08\x00\x00\x00u*\xda\xd0\xff\xff\xff\xff\xff\xff\xff\xff",
    ),
    (
        b"other 66656566696c746572000000 0102",
        b"\xf9\xbe\xb4\xd9feefilter\x00\x00\x00\x02\x00\x00\x00v\xa5j\xce\x01\x02",
    ),
];

/// The frame of the message that a line shows.
fn frame_of(alloc: Global, line: &[u8]) -> Result<Vec<u8>, Fail> {
    let Ok(message) = read_shown(alloc, line) else {
        return Err(Fail::from("no message"));
    };
    if !is_within_limits(&message) {
        return Err(Fail::from("above its limits"));
    }
    let frame = encode(alloc, &message)?;
    let lent = FrameRef {
        command: frame.command,
        payload: frame.payload.as_slice(),
    };
    if !is_frame(&lent) {
        return Err(Fail::from("no frame"));
    }
    let mut out = Vec::new(alloc);
    write_lent_frame(MAIN_MAGIC, &lent, &mut out)?;
    Ok(out)
}

/// The line of the message whose frame comes in pieces of so many bytes.
fn line_of(alloc: Global, bytes: &[u8], size: usize) -> Result<Vec<u8>, Fail>
    requires { 0 < size }
{
    let mut feeder = Feeder::new(alloc, MAIN_MAGIC);
    for piece in bytes.chunks(size) {
        feeder.push(piece)?;
    }
    let Ok(Some(frame)) = feeder.next() else {
        return Err(Fail::from("no frame"));
    };
    let Ok(message) = decode_frame(alloc, &frame) else {
        return Err(Fail::from("no message"));
    };
    let line = show(alloc, &message)?;
    Ok(line.as_slice().to_vec(alloc)?)
}

#[test]
fn each_message_goes_both_ways(rt: HostRuntime) -> Result<(), Fail> {
    let alloc = rt.alloc();
    let mut text = Vec::new(alloc);
    let mut stream = Vec::new(alloc);
    for (line, frame) in MESSAGES {
        assert_eq!(rt; frame_of(alloc, line)?.as_slice(), *frame);
        for size in [1, 2, 23, 24, 25, frame.len().max(1)] {
            assert_eq!(rt; line_of(alloc, frame, size)?.as_slice(), *line);
        }
        text.extend_from_slice(line)?;
        text.push(b'\n')?;
        stream.extend_from_slice(frame)?;
    }
    let frames = packed_frames(alloc, text.as_slice());
    assert!(rt; frames.is_ok_and(|frames| frames.as_slice() == stream.as_slice()));
    let lines = shown_text(alloc, stream.as_slice());
    assert!(rt; lines.is_ok_and(|lines| lines.as_slice() == text.as_slice()));
    Ok(())
}
