//! Scripts and their events, shown as plain values.

use super::*;
use base_types::{Kind, TextFault};
use line_text::ReadStop;
use pair_rules::Event;
use std::alloc::Global;
use std::test::Fail;

/// An event as a value that can be compared.
#[derive(Clone, Copy, Debug, PartialEq, Eq)]
enum Seen<'a> {
    Ab(u64),
    Ba(u64),
    A(&'a [u8]),
    B(&'a [u8]),
    Round,
}

fn shown_event(event: &Event) -> Seen<'_> {
    match event {
        Event::DeliverAb(n) => Seen::Ab(*n),
        Event::DeliverBa(n) => Seen::Ba(*n),
        Event::AddA(tx) => Seen::A(tx.as_slice()),
        Event::AddB(tx) => Seen::B(tx.as_slice()),
        Event::Round => Seen::Round,
    }
}

fn are_seen(events: &[Event], expected: &[Seen<'_>]) -> bool {
    if events.len() != expected.len() {
        return false;
    }
    for (event, one) in events.iter().zip(expected) {
        if shown_event(event) != *one {
            return false;
        }
    }
    true
}

/// What a line `drain` becomes.
fn push_drain<'a>(events: &mut Vec<Seen<'a>>) -> Result<(), Fail> {
    for _ in 0..16 {
        events.push(Seen::Ab(18_446_744_073_709_551_615))?;
        events.push(Seen::Ba(18_446_744_073_709_551_615))?;
    }
    Ok(())
}

/// Scripts and their events.
const SCRIPTS: &[(&[u8], &[Seen<'static>])] = &[
    (b"", &[]),
    (b"\n\r\nround", &[Seen::Round]),
    (
        b"a 68656c6C6F\r\nb 616263\n",
        &[Seen::A(b"hello"), Seen::B(b"abc")],
    ),
    (
        b"ab 1\nba 1000000000\nround\nab 24\n",
        &[
            Seen::Ab(1),
            Seen::Ba(1_000_000_000),
            Seen::Round,
            Seen::Ab(24),
        ],
    ),
];

/// Scripts, and the line and kind of their first faults.
const FAULTS: &[(&[u8], u64, Kind)] = &[
    (b"round\n\nrounds\nx", 3, Kind::Form),
    (b"round\nround ", 2, Kind::Form),
    (b"ab 0", 1, Kind::Form),
    (b"ab 1000000001", 1, Kind::Form),
    (b"ba 01", 1, Kind::Form),
    (b"ba +1", 1, Kind::Form),
    (b"ab  1", 1, Kind::Form),
    (b"a", 1, Kind::Form),
    (b"b ", 1, Kind::Form),
    (b"a x", 1, Kind::OddDigits),
    (b"b 00 0", 1, Kind::BadDigit),
    (b"drain\na  000", 2, Kind::BadDigit),
];

#[test]
fn scripts_are_read(rt: HostRuntime) -> Result<(), Fail> {
    let alloc = rt.alloc();
    for (text, expected) in SCRIPTS {
        match script_of(alloc, text) {
            Ok(events) => assert!(rt; are_seen(events.as_slice(), expected)),
            Err(_) => assert!(rt; false),
        }
    }
    let mut drained = Vec::new(alloc);
    push_drain(&mut drained)?;
    match script_of(alloc, b"drain\n") {
        Ok(events) => assert!(rt; are_seen(events.as_slice(), drained.as_slice())),
        Err(_) => assert!(rt; false),
    }
    Ok(())
}

#[test]
fn the_first_fault_is_named(rt: HostRuntime) -> Result<(), Fail> {
    let alloc = rt.alloc();
    for (text, place, kind) in FAULTS {
        let fault = TextFault {
            place: *place,
            kind: *kind,
        };
        match script_of(alloc, text) {
            Ok(_) => assert!(rt; false),
            Err(stop) => assert_eq!(rt; stop, ReadStop::Fault(fault)),
        }
    }
    Ok(())
}

/// A text of so many lines `round`, and one of no form before them.
fn rounds(alloc: Global, lines: u32) -> Result<Vec<u8>, Fail> {
    let mut text = Vec::new(alloc);
    text.extend_from_slice(b"x\n")?;
    for _ in 0..lines {
        text.extend_from_slice(b"round\n")?;
    }
    Ok(text)
}

#[test]
fn too_many_lines_are_counted_first(rt: HostRuntime) -> Result<(), Fail> {
    let alloc = rt.alloc();
    for (lines, place, kind) in [(99_999, 1, Kind::Form), (100_000, 100_001, Kind::TooMany)] {
        let text = rounds(alloc, lines)?;
        match script_of(alloc, text.as_slice()) {
            Ok(_) => assert!(rt; false),
            Err(stop) => assert_eq!(rt; stop, ReadStop::Fault(TextFault { place, kind })),
        }
    }
    Ok(())
}

/// Numbers, the additions of their scripts before the first round, and the transaction that comes to a during the round,
/// by a program of its own.
const GENERATED: &[(u64, &[Seen<'static>], &[u8])] = &[
    (
        1,
        &[
            Seen::A(b"\x00\x00\x00\x00\x00\x00\x00\x00\x7c\x00\xfd\x43\xac\x6f\x57\x6c"),
            Seen::B(b"\x00\x00\x00\x00\x00\x00\x00\x00\x7c\x00\xfd\x43\xac\x6f\x57\x6c"),
        ],
        b"\x01\x00\x00\x00\x00\x00\x00\x00\x1b\x1b\x4a\x86\xb3\x86\x68\x82",
    ),
    (
        8,
        &[
            Seen::A(b"\x00\x00\x00\x00\x00\x00\x00\x00\xb7\x7a\x13\x5c\xe9\x1c\x95\xd6"),
            Seen::B(b"\x00\x00\x00\x00\x00\x00\x00\x00\xb7\x7a\x13\x5c\xe9\x1c\x95\xd6"),
            Seen::A(b"\x01\x00\x00\x00\x00\x00\x00\x00\x7a\xdc\x37\x91\x21\xb3\x05\x5d"),
            Seen::B(b"\x01\x00\x00\x00\x00\x00\x00\x00\x7a\xdc\x37\x91\x21\xb3\x05\x5d"),
            Seen::A(b"\x02\x00\x00\x00\x00\x00\x00\x00\xc1\xc8\x9b\xbf\xd9\xc3\x19\xf3"),
            Seen::B(b"\x02\x00\x00\x00\x00\x00\x00\x00\xc1\xc8\x9b\xbf\xd9\xc3\x19\xf3"),
            Seen::A(b"\x03\x00\x00\x00\x00\x00\x00\x00\x3c\x8a\xb6\x12\x06\xf2\x1f\x41"),
            Seen::B(b"\x03\x00\x00\x00\x00\x00\x00\x00\x3c\x8a\xb6\x12\x06\xf2\x1f\x41"),
            Seen::A(b"\x04\x00\x00\x00\x00\x00\x00\x00\xdb\x91\xfd\x14\xad\x9b\x9e\xad"),
            Seen::B(b"\x04\x00\x00\x00\x00\x00\x00\x00\xdb\x91\xfd\x14\xad\x9b\x9e\xad"),
            Seen::B(b"\x05\x00\x00\x00\x00\x00\x00\x00\xce\xc9\xcc\x5b\xb7\x94\xfc\x13"),
            Seen::A(b"\x06\x00\x00\x00\x00\x00\x00\x00\x85\x2c\x6a\x4f\x95\xa1\xb1\xe0"),
            Seen::B(b"\x06\x00\x00\x00\x00\x00\x00\x00\x85\x2c\x6a\x4f\x95\xa1\xb1\xe0"),
            Seen::A(b"\x07\x00\x00\x00\x00\x00\x00\x00\xb0\x4f\x90\xfe\x87\x4a\x10\x08"),
        ],
        b"\x08\x00\x00\x00\x00\x00\x00\x00\x3f\xd3\xbd\xef\x46\xd0\x97\x56",
    ),
];

fn generated<'a>(
    alloc: Global,
    additions: &[Seen<'a>],
    last: &'a [u8],
) -> Result<Vec<Seen<'a>>, Fail> {
    let mut events = Vec::new(alloc);
    events.extend_from_slice(additions)?;
    push_drain(&mut events)?;
    events.push(Seen::Round)?;
    events.push(Seen::Ab(7))?;
    events.push(Seen::A(last))?;
    push_drain(&mut events)?;
    events.push(Seen::Round)?;
    push_drain(&mut events)?;
    Ok(events)
}

#[test]
fn scripts_are_made_from_numbers(rt: HostRuntime) -> Result<(), Fail> {
    let alloc = rt.alloc();
    for (n, additions, last) in GENERATED {
        let expected = generated(alloc, additions, last)?;
        let Ok(events) = generated_script(alloc, *n) else {
            assert!(rt; false);
            return Ok(());
        };
        assert!(rt; are_seen(events.as_slice(), expected.as_slice()));
    }
    Ok(())
}
