//! Ends and rounds whose texts are known.

use super::*;
use base_types::{Hash32, Hashes, OutOfMemory, Shorts};
use node_rules::End;
use pair_rules::Side;
use pool_rules::{Ending, Report};
use std::alloc::Global;
use std::test::Fail;
use wire_rules::{FrameFault, Name, PayloadFault, PayloadKind, Phase};

// The ids of the bytes of 'hello' and 'abc', by an independent implementation of SHA-256.
const HELLO: Hash32 = Hash32(
    *b"\x95\x95\xc9\xdf\x90\x07\x51\x48\xeb\x06\x86\x03\x65\xdf\x33\x58\x4b\x75\xbf\xf7\x82\xa5\x10\xc6\xcd\x48\x83\xa4\x19\x83\x3d\x50",
);

const ABC: Hash32 = Hash32(
    *b"\x4f\x8b\x42\xc2\x2d\xd3\x72\x9b\x51\x9b\xa6\xf6\x8d\x2d\xa7\xcc\x5b\x2d\x60\x6d\x05\xda\xed\x5a\xd5\x12\x8c\xc0\x3e\x6c\x63\x58",
);

/// A report of so many ids and so many short ids.
fn report_of(
    alloc: Global,
    ending: Ending,
    capacity: u32,
    ids: usize,
    shorts: usize,
) -> Result<Report, OutOfMemory> {
    Ok(Report {
        snapshot: Hashes::from_vec(vec![in alloc; HELLO; ids]?),
        capacity,
        ending,
        answered: Shorts::from_vec(vec![in alloc; 1; shorts]?),
    })
}

#[test]
fn ends_by_a_fault_of_the_stream_have_known_texts(rt: HostRuntime) -> Result<(), Fail> {
    let alloc = rt.alloc();
    for (end, text) in [
        (
            End::Frame(FrameFault::BadMagic { at: 0 }),
            b"bad magic at 0".as_slice(),
        ),
        (
            End::Frame(FrameFault::BadCommand { at: 24 }),
            b"bad command at 24",
        ),
        (
            End::Frame(FrameFault::TooLong {
                at: 203,
                len: 4_000_001,
            }),
            b"too long at 203: 4000001",
        ),
        (
            End::Frame(FrameFault::BadChecksum {
                at: 0,
                stands: *b"\x5d\xf6\xe0\xe3",
                computed: *b"\x5d\xf6\xe0\xe2",
            }),
            b"bad checksum at 0: 5df6e0e3 not 5df6e0e2",
        ),
        (
            End::Payload(PayloadFault {
                command: Name::Sketch,
                at: 0,
                kind: PayloadKind::NotMinimal,
            }),
            b"payload of sketch at 0: not minimal",
        ),
    ] {
        assert_eq!(rt; end_text(alloc, &end)?.as_slice(), text);
    }
    Ok(())
}

#[test]
fn ends_by_a_message_have_known_texts(rt: HostRuntime) -> Result<(), Fail> {
    let alloc = rt.alloc();
    for (end, text) in [
        (End::OldPeer(70_015), b"old peer 70015".as_slice()),
        (End::OldPeer(-1), b"old peer -1"),
        (End::PeerNoRelay, b"peer no relay"),
        (End::NoWtxidRelay, b"no wtxidrelay"),
        (End::ZeroReconVersion, b"zero version"),
        (
            End::Handshake {
                command: Name::Verack,
            },
            b"handshake verack",
        ),
        (
            End::Misplaced {
                command: Name::ReqRecon,
                phase: Phase::Sent,
            },
            b"misplaced reqrecon in sent",
        ),
        (
            End::SketchLength {
                len: 4_100,
                wanted: 0,
            },
            b"sketch length 4100 wanted 0",
        ),
        (End::UnknownShortId(9), b"unknown short id 00000009"),
        (End::AskRepeated(0xabcd), b"ask repeated 0000abcd"),
        (End::AsksOnFailure(1), b"asks on failure 1"),
        (End::PoolFull, b"pool full"),
    ] {
        assert_eq!(rt; end_text(alloc, &end)?.as_slice(), text);
    }
    Ok(())
}

#[test]
fn refusals_have_known_texts(rt: HostRuntime) -> Result<(), Fail> {
    let alloc = rt.alloc();
    assert_eq!(rt;
        refused_text(alloc, &End::PoolFull)?.as_slice(),
        b"refused pool full".as_slice()
    );
    assert_eq!(rt;
        side_refused_text(alloc, Side::A, &End::PoolFull)?.as_slice(),
        b"refused a pool full".as_slice()
    );
    assert_eq!(rt;
        side_refused_text(alloc, Side::B, &End::UnknownShortId(9))?.as_slice(),
        b"refused b unknown short id 00000009".as_slice()
    );
    Ok(())
}

#[test]
fn phases_have_known_words(rt: HostRuntime) -> Result<(), Fail> {
    let alloc = rt.alloc();
    for (phase, text) in [
        (Phase::Greeting, b"truncated greeting".as_slice()),
        (Phase::Greeted, b"truncated greeted"),
        (Phase::Idle, b"truncated idle"),
        (Phase::Waiting, b"truncated waiting"),
        (Phase::WaitingExt, b"truncated waiting-ext"),
        (Phase::WaitingExt2, b"truncated waiting-ext2"),
        (Phase::Barrier, b"truncated barrier"),
        (Phase::Fetching, b"truncated fetching"),
        (Phase::Sent, b"truncated sent"),
        (Phase::SentExt, b"truncated sent-ext"),
        (Phase::SentExt2, b"truncated sent-ext2"),
    ] {
        assert_eq!(rt; truncated_text(alloc, phase)?.as_slice(), text);
    }
    Ok(())
}

#[test]
fn reports_have_known_lines(rt: HostRuntime) -> Result<(), Fail> {
    let alloc = rt.alloc();
    let mut reports = Vec::new(alloc);
    for (ending, capacity, ids, shorts) in [
        (Ending::First, 8, 1, 2),
        (Ending::Extension, 1_024, 0, 1),
        (Ending::Extension2, 1_024, 12, 0),
        (Ending::Fallback, 511, 3, 0),
    ] {
        reports.push(report_of(alloc, ending, capacity, ids, shorts)?)?;
    }
    let reports = reports.as_slice();
    let mut text = Vec::new(alloc);
    put_report_lines(&mut text, Some(Side::A), 1, reports)?;
    put_report_lines(&mut text, Some(Side::B), 9, reports)?;
    put_report_lines(&mut text, None, 1, reports)?;
    put_report_lines(&mut text, Some(Side::A), 1, &[])?;
    assert_eq!(rt;
        text.as_slice(),
        b"\
        a round 1 first 8 1 2\n\
        a round 2 extension 1024 0 1\n\
        a round 3 extension2 1024 12 0\n\
        a round 4 fallback 511 3 0\n\
        b round 9 first 8 1 2\n\
        b round 10 extension 1024 0 1\n\
        b round 11 extension2 1024 12 0\n\
        b round 12 fallback 511 3 0\n\
        round 1 first 8 1 2\n\
        round 2 extension 1024 0 1\n\
        round 3 extension2 1024 12 0\n\
        round 4 fallback 511 3 0\n"
            .as_slice()
    );
    Ok(())
}

#[test]
fn sides_have_known_lines(rt: HostRuntime) -> Result<(), Fail> {
    let mut text = Vec::new(rt.alloc());
    put_phase_line(&mut text, Side::A, Phase::Greeting)?;
    put_phase_line(&mut text, Side::B, Phase::Idle)?;
    put_full_line(&mut text, 0)?;
    put_full_line(&mut text, 12)?;
    put_pool_line(&mut text, Some(Side::A), 0)?;
    put_id_lines(&mut text, &[])?;
    put_pool_line(&mut text, Some(Side::B), 2)?;
    put_id_lines(&mut text, &[ABC, HELLO])?;
    put_pool_line(&mut text, None, 2_035)?;
    assert_eq!(rt;
        text.as_slice(),
        b"\
        phase a greeting\n\
        phase b idle\n\
        full 12\n\
        pool a 0\n\
        pool b 2\n\
        4f8b42c22dd3729b519ba6f68d2da7cc5b2d606d05daed5ad5128cc03e6c6358\n\
        9595c9df90075148eb06860365df33584b75bff782a510c6cd4883a419833d50\n\
        pool 2035\n"
            .as_slice()
    );
    Ok(())
}
