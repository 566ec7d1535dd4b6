//! Streams whose frames and faults are known.

ghost use Rattle.std.specs.Prelude.{◌<◌};

use super::*;
use base_types::OutOfMemory;
use std::alloc::Global;
use wire_rules::{Frame, FrameFault, FrameRef};

/// The main network.
const MAIN: [u8; 4] = [0xF9, 0xBE, 0xB4, 0xD9];

/// What a feeder answers of a stream: how many frames, and how many bytes their payloads have; then the fault, or how
/// many bytes are unread; and the offset of the first of these.
#[derive(Clone, Copy, Debug, PartialEq, Eq)]
struct Seen {
    frames: u64,
    payload: u64,
    fault: Option<FrameFault>,
    held: usize,
    place: u64,
}

/// The next answer: how many bytes the payload of the frame has. The frame is taken, or it is looked at and skipped.
fn step(feeder: &mut Feeder, taken: bool) -> Result<Option<usize>, FeedStop> {
    if taken {
        return match feeder.next() {
            Ok(Some(frame)) => Ok(Some(frame.payload.as_slice().len())),
            Ok(None) => Ok(None),
            Err(stop) => Err(stop),
        };
    }
    let size = match feeder.front() {
        Ok(Some(frame)) => frame.payload.len(),
        Ok(None) => return Ok(None),
        Err(fault) => return Err(FeedStop::Fault(fault)),
    };
    feeder.skip();
    Ok(Some(size))
}

/// Passes the frames that stand whole, each second one by `skip`.
fn drain(feeder: &mut Feeder, seen: &mut Seen, most: usize) -> Result<(), OutOfMemory> {
    for i in 0..most {
        match step(feeder, i % 2 == 0) {
            Ok(Some(size)) => {
                seen.frames = seen.frames.saturating_add(1);
                seen.payload = seen.payload.saturating_add(size as u64);
            }
            Ok(None) => {
                seen.held = feeder.held();
                seen.place = feeder.place();
                break;
            }
            Err(FeedStop::Fault(fault)) => {
                seen.held = 0;
                seen.place = feeder.place();
                seen.fault = Some(fault);
                break;
            }
            Err(FeedStop::OutOfMemory) => return Err(OutOfMemory),
        }
    }
    Ok(())
}

/// A stream of the main network in pieces of so many bytes, behind a first piece.
fn feed(alloc: Global, first: &[u8], rest: &[u8], size: usize) -> Result<Seen, OutOfMemory>
    requires { 0 < size }
{
    let mut feeder = Feeder::new(alloc, MAIN);
    let mut seen = Seen {
        frames: 0,
        payload: 0,
        fault: None,
        held: 0,
        place: 0,
    };
    feeder.push(first)?;
    drain(&mut feeder, &mut seen, first.len())?;
    for piece in rest.chunks(size) {
        feeder.push(piece)?;
        drain(&mut feeder, &mut seen, 9)?;
    }
    Ok(seen)
}

/// What a feeder answers of a stream: frames, bytes of their payloads, the fault, bytes unread, and the place.
type Answer = (u64, u64, Option<FrameFault>, usize, u64);

/// What stands behind a `verack`, and what a feeder answers of both.
const STREAMS: &[(&[u8], Answer)] = &[
    (b"", (1, 0, None, 0, 24)),
    (
        b"\xf9\xbe\xb4\xd9tx\0\0\0\0\0\0\0\0\0\0\x05\0\0\0\x95\x95\xc9\xdfhello\xf9\xbe",
        (2, 5, None, 2, 53),
    ),
    (
        b"\xf9\xbe\xb4\xd9 ~abcdefghij\x01\0\0\0\xc0\xb0\x57\xf5\xff\xf9\xbe\xb4\xd9verack\0\0\0\0\0\0\0\0\0\0\x5d\xf6\xe0\xe2",
        (3, 1, None, 0, 73),
    ),
    (
        b"\xf9\xbe\xb4\xd9tx\0\0\0\0\0\0\0\0\0\0\x05\0\0\0\x95\x95\xc9\xdfhell",
        (1, 0, None, 28, 24),
    ),
    (
        b"\xf9\xbe\xb4\xd9tx\0\0\0\0\0\0\0\0\0\0\x00\x09\x3d\0\0\0\0\0",
        (1, 0, None, 24, 24),
    ),
    (
        b"\xf9\xbe\xb4\xd9tx\0\0\0\0\0\0\0\0\0\0\x01\x09\x3d\0\0\0\0\0",
        (
            1,
            0,
            Some(FrameFault::TooLong {
                at: 24,
                len: 4_000_001,
            }),
            0,
            24,
        ),
    ),
    (
        b"\xf9\xbe\xb4\xd9tx\0\0\0\0\0\0\0\0\0\x01\xff\xff\xff\xff\0\0\0\0",
        (1, 0, Some(FrameFault::BadCommand { at: 24 }), 0, 24),
    ),
    (
        b"\xf9\xbe\xb4\xd9tx\0x\0\0\0\0\0\0\0\0\0\0\0\0\x5d\xf6\xe0\xe2",
        (1, 0, Some(FrameFault::BadCommand { at: 24 }), 0, 24),
    ),
    (
        b"\xf9\xbe\xb4\xd9\0\0\0\0\0\0\0\0\0\0\0\0\0\0\0\0\x5d\xf6\xe0\xe2",
        (1, 0, Some(FrameFault::BadCommand { at: 24 }), 0, 24),
    ),
    (
        b"\xf9\xbe\xb4\xd9t\x7f\0\0\0\0\0\0\0\0\0\0\0\0\0\0\x5d\xf6\xe0\xe2",
        (1, 0, Some(FrameFault::BadCommand { at: 24 }), 0, 24),
    ),
    (
        b"\xf9\xbe\xb4\xd9t\x1f\0\0\0\0\0\0\0\0\0\0\0\0\0\0\x5d\xf6\xe0\xe2",
        (1, 0, Some(FrameFault::BadCommand { at: 24 }), 0, 24),
    ),
    (
        b"\0\0\0\0\0\0\0\0\0\0\0\0\0\0\0\0\0\0\0\0\0\0\0\0",
        (1, 0, Some(FrameFault::BadMagic { at: 24 }), 0, 24),
    ),
    (
        b"\xf9\xbe\xb4\xd9verack\0\0\0\0\0\0\0\0\0\0\x5d\xf6\xe0\xe3",
        (
            1,
            0,
            Some(FrameFault::BadChecksum {
                at: 24,
                stands: [0x5D, 0xF6, 0xE0, 0xE3],
                computed: [0x5D, 0xF6, 0xE0, 0xE2],
            }),
            0,
            24,
        ),
    ),
];

#[test]
fn streams_are_read_alike_at_every_cut(rt: HostRuntime) {
    for (behind, (frames, payload, fault, held, place)) in STREAMS {
        let mut stream = Vec::from_slice(rt.alloc(), VERACK).expect(&rt, "memory");
        stream.extend_from_slice(behind).expect(&rt, "memory");
        let stream = stream.as_slice();
        let want = Some(Seen {
            frames: *frames,
            payload: *payload,
            fault: *fault,
            held: *held,
            place: *place,
        });
        for cut in 0..=stream.len() {
            let (first, rest) = stream.split_at(cut);
            assert_eq!(rt; feed(rt.alloc(), first, rest, 99).ok(), want);
        }
        for size in [1, 2, 23, 24, 25] {
            assert_eq!(rt; feed(rt.alloc(), b"", stream, size).ok(), want);
        }
    }
}

/// The frame of a `verack` message.
const VERACK: &[u8] = b"\xf9\xbe\xb4\xd9verack\0\0\0\0\0\0\0\0\0\0\x5d\xf6\xe0\xe2";

#[test]
fn a_frame_comes_with_its_last_byte(rt: HostRuntime) {
    let mut feeder = Feeder::new(rt.alloc(), MAIN);
    for i in 0..23 {
        feeder.push(&VERACK[i..i + 1]).expect(&rt, "memory");
        assert!(rt; matches!(feeder.next(), Ok(None)));
    }
    feeder.push(&VERACK[23..]).expect(&rt, "memory");
    let Ok(Some(frame)) = feeder.next() else {
        panic!(rt; "a frame");
    };
    assert_eq!(rt; &frame.command, b"verack\0\0\0\0\0\0");
    assert!(rt; frame.payload.as_slice().is_empty());
    let out = written(rt.alloc(), frame.command, b"");
    assert!(rt; out.is_some_and(|bytes| bytes.as_slice() == VERACK));
}

/// A frame of the main network, where it may be sent.
fn written(alloc: Global, command: [u8; 12], payload: &[u8]) -> Option<Vec<u8>> {
    let frame = FrameRef { command, payload };
    let mut out = Vec::new(alloc);
    if !is_frame(&frame) || write_lent_frame(MAIN, &frame, &mut out).is_err() {
        return None;
    }
    Some(out)
}

/// So many zero bytes.
fn zeros(alloc: Global, len: usize) -> Option<Vec<u8>> {
    vec![in alloc; 0u8; len].ok()
}

#[test]
fn a_payload_has_up_to_the_limit(rt: HostRuntime) {
    let zeros = zeros(rt.alloc(), 4_000_001).expect(&rt, "memory");
    let command = *b"tx\0\0\0\0\0\0\0\0\0\0";
    assert!(rt; written(rt.alloc(), command, zeros.as_slice()).is_none());
    let most = zeros.as_slice().split_first().expect(&rt, "a byte").1;
    let out = written(rt.alloc(), command, most).expect(&rt, "a frame");
    assert!(rt;
        out.as_slice().starts_with(
            b"\xf9\xbe\xb4\xd9tx\0\0\0\0\0\0\0\0\0\0\x00\x09\x3d\0\x5a\x65\x69\x26"
        )
    );
    let seen = feed(rt.alloc(), b"", out.as_slice(), 1_000_000).expect(&rt, "memory");
    assert_eq!(rt;
        (seen.frames, seen.payload, seen.held, seen.place),
        (1, 4_000_000, 0, 4_000_024)
    );
}
