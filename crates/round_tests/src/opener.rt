//! Rounds with a plain peer, and sketches that are refused.

use crate::made::id_of;
use base_types::Hashes;
use field_core::Gf32;
use initiator::{Initiator, InitiatorFault};
use pool_rules::FIRST_COEFFICIENT;
use recon_set::ReconSet;
use std::alloc::{AllocError, Global};
use std::process::Abort;
use wire_rules::{Message, Name, Phase};

/// A new opener.
fn opener_at(rt: &impl Abort, alloc: Global, level: u32) -> Initiator<Gf32> {
    assert!(rt; 1 <= level && level <= 2);
    Initiator::new(alloc, FIRST_COEFFICIENT, level)
}

/// That a round with a plain peer begins with a ping, once, and no other round begins behind it.
fn assert_pinged(rt: &impl Abort, opener: &mut Initiator<Gf32>) {
    assert_eq!(rt; opener.phase(), Phase::Idle);
    assert!(rt; matches!(opener.begin_plain(), Some(Message::Ping(1))));
    assert!(rt; opener.begin_plain().is_none());
    assert!(rt; opener.begin(0).is_none());
    assert_eq!(rt; opener.phase(), Phase::Barrier);
}

/// Two ids that are wanted.
fn two_wanted(alloc: Global) -> Result<Hashes, AllocError> {
    Ok(Hashes::from_vec(Vec::from_slice(alloc, &[id_of(1), id_of(2)])?))
}

/// That a pong of another number is passed over.
fn assert_passed_over(rt: &impl Abort, opener: &mut Initiator<Gf32>, wanted: &Hashes) {
    let outs = opener.on_pong(2, wanted).expect(rt, "memory");
    assert!(rt; outs.as_slice().is_empty());
    assert_eq!(rt; opener.phase(), Phase::Barrier);
}

/// That the ping's pong asks for the two ids that are wanted.
fn assert_asked(rt: &impl Abort, opener: &mut Initiator<Gf32>, wanted: &Hashes) {
    let outs = opener.on_pong(1, wanted).expect(rt, "memory");
    let [Message::GetData(entries)] = outs.as_slice() else {
        rt.abort()
    };
    assert_eq!(rt; entries.as_slice().len(), 2);
    assert_eq!(rt; opener.phase(), Phase::Fetching);
}

/// That the round is over with the last want, and isn't told.
fn assert_over(rt: &impl Abort, opener: &mut Initiator<Gf32>) {
    opener.on_last_want();
    assert_eq!(rt; opener.phase(), Phase::Idle);
    assert_eq!(rt; opener.begun(), 1);
    assert!(rt; opener.reports().is_empty());
}

#[test]
fn a_round_with_a_plain_peer_is_its_ping(rt: HostRuntime) {
    let mut opener = opener_at(&rt, rt.alloc(), 2);
    assert_pinged(&rt, &mut opener);
    let wanted = two_wanted(rt.alloc()).expect(&rt, "memory");
    assert_passed_over(&rt, &mut opener, &wanted);
    assert_asked(&rt, &mut opener, &wanted);
    assert_over(&rt, &mut opener);
}

/// That no sketch is taken where none was asked for.
fn assert_misplaced(rt: &impl Abort, opener: &Initiator<Gf32>, set: &ReconSet<Gf32>) {
    let misplaced = InitiatorFault::Misplaced {
        command: Name::Sketch,
        phase: Phase::Idle,
    };
    assert_eq!(rt; opener.merged(&[], set).err(), Some(misplaced));
}

/// That a round begins with the first coefficient.
fn assert_begun(rt: &impl Abort, opener: &mut Initiator<Gf32>) {
    assert_eq!(rt; opener.coefficient(), 8_192);
    let request = opener.begin(3);
    assert!(rt; matches!(request, Some(Message::ReqRecon { size: 3, q: 8_192 })));
    assert_eq!(rt; opener.phase(), Phase::Waiting);
}

/// That a sketch of this length is refused.
fn assert_length(
    rt: &impl Abort,
    alloc: Global,
    opener: &Initiator<Gf32>,
    set: &ReconSet<Gf32>,
    len: usize,
) {
    let bytes = vec![in alloc; 0_u8; len].expect(rt, "memory");
    let refused = opener.merged(bytes.as_slice(), set);
    let fault = InitiatorFault::SketchLength {
        len: len as u64,
        wanted: 0,
    };
    assert_eq!(rt; refused.err(), Some(fault));
}

/// That the sums of eight bytes are merged with those of an empty set.
fn assert_merged(rt: &impl Abort, opener: &Initiator<Gf32>, set: &ReconSet<Gf32>) {
    let sketch = opener
        .merged(&[5, 0, 0, 0, 7, 1, 0, 0], set)
        .expect(rt, "memory");
    let Some(sketch) = sketch else { rt.abort() };
    assert_eq!(rt; sketch.sums(), [Gf32::new(5), Gf32::new(0x107)].as_slice());
}

#[test]
fn sketches_of_other_lengths_are_refused(rt: HostRuntime) {
    let alloc = rt.alloc();
    let set = ReconSet::<Gf32>::empty(alloc);
    let mut opener = opener_at(&rt, alloc, 1);
    assert_misplaced(&rt, &opener, &set);
    assert_begun(&rt, &mut opener);
    for len in [1, 3, 4_097, 4_100] {
        assert_length(&rt, alloc, &opener, &set, len);
    }
    let none = opener.merged(&[], &set).expect(&rt, "memory");
    assert!(rt; none.is_none());
    assert_merged(&rt, &opener, &set);
}
