//! Rounds of a few ids.

use crate::made::{Pair, id_of, set_of};
use base_types::{Bytes, Hash32, Shorts};
use field_core::{Field, Gf32};
use pool_rules::Ending;
use recon_set::ReconSet;
use responder::{Responder, ResponderFault};
use std::alloc::{AllocError, Global};
use std::process::Abort;
use wire_rules::{Message, Name, Outs, Phase};

/// The id of the member at an index.
fn id_at(index: usize) -> Hash32 {
    id_of((index % 256) as u8)
}

/// The ids of the members at these indices.
fn ids_at(alloc: Global, indices: &[usize]) -> Result<Vec<Hash32>, AllocError> {
    let mut ids = Vec::new(alloc);
    for index in indices {
        ids.push(id_at(*index))?;
    }
    Ok(ids)
}

/// These short ids, each with the id of its index.
fn pairs_of(alloc: Global, shorts: &[u32]) -> Result<Vec<Pair>, AllocError> {
    let mut pairs = Vec::new(alloc);
    for (i, short) in shorts.iter().enumerate() {
        pairs.push((id_at(i), *short))?;
    }
    Ok(pairs)
}

/// A set with these short ids, whose ids are those of their indices.
fn set_with(rt: &impl Abort, alloc: Global, shorts: &[u32]) -> ReconSet<Gf32> {
    let pairs = pairs_of(alloc, shorts).expect(rt, "memory");
    set_of(rt, alloc, pairs.as_slice())
}

/// An odd power of an element, multiplied out.
fn odd_power(element: Gf32, index: u32) -> Gf32 {
    let mut power = element;
    for _ in 0..index {
        power = power.mul(element).mul(element);
    }
    power
}

/// The sum of the odd powers at an index.
fn sum_at(shorts: &[u32], index: u32) -> Gf32 {
    let mut sum = Gf32::new(0);
    for short in shorts {
        sum = sum.add(odd_power(Gf32::new(*short), index));
    }
    sum
}

/// The sums of odd powers from an index on, as bytes.
fn sums_from(alloc: Global, shorts: &[u32], from: u32, count: u32) -> Result<Vec<u8>, AllocError> {
    let mut bytes = Vec::new(alloc);
    for index in from..from.saturating_add(count) {
        bytes.extend_from_slice(&sum_at(shorts, index).get().to_le_bytes())?;
    }
    Ok(bytes)
}

/// The bytes of a sketch message.
fn sketch_in(rt: &impl Abort, message: Message) -> Bytes {
    match message {
        Message::Sketch(bytes) => bytes,
        _ => rt.abort(),
    }
}

/// The ids that are announced, all of them by wtxid.
fn announced_in(alloc: Global, outs: &Outs) -> Result<Vec<Hash32>, AllocError> {
    let mut ids = Vec::new(alloc);
    for message in outs.as_slice() {
        if let Message::Inv(entries) = message {
            for entry in entries.as_slice() {
                if entry.kind == 5 {
                    ids.push(entry.id)?;
                }
            }
        }
    }
    Ok(ids)
}

/// A list of short ids.
fn listed(rt: &impl Abort, alloc: Global, shorts: &[u32]) -> Shorts {
    Shorts::from_vec(shorts.to_vec(alloc).expect(rt, "memory"))
}

/// A new accepter.
fn accepter_at(rt: &impl Abort, alloc: Global, level: u32) -> Responder<Gf32> {
    assert!(rt; 1 <= level && level <= 2);
    Responder::new(alloc, level)
}

/// The sketch that an accepter answers a request with, which takes a set of these short ids whole.
fn first_of(
    rt: &impl Abort,
    alloc: Global,
    accepter: &mut Responder<Gf32>,
    size: u16,
    q: u16,
    shorts: &[u32],
) -> Bytes {
    let mut set = set_with(rt, alloc, shorts);
    let message = accepter
        .on_reqrecon(size, q, &mut set)
        .expect(rt, "a sketch");
    assert!(rt; set.is_empty());
    assert_eq!(rt; accepter.phase(), Phase::Sent);
    sketch_in(rt, message)
}

/// An extension.
fn extension_of(rt: &impl Abort, accepter: &mut Responder<Gf32>) -> Bytes {
    let message = accepter.on_reqsketchext().expect(rt, "an extension");
    sketch_in(rt, message)
}

/// That a sketch is of so many sums of 5, 7 and 9, from the index on.
fn assert_sketch(rt: &impl Abort, alloc: Global, sketch: &Bytes, from: u32, count: u32) {
    let wanted = sums_from(alloc, &[5, 7, 9], from, count).expect(rt, "memory");
    assert_eq!(rt; sketch.as_slice(), wanted.as_slice());
}

/// That one more extension isn't sent in this phase.
fn assert_no_extension(rt: &impl Abort, accepter: &mut Responder<Gf32>, phase: Phase) {
    let misplaced = ResponderFault::Misplaced {
        command: Name::ReqSketchExt,
        phase,
    };
    assert_eq!(rt; accepter.on_reqsketchext().err(), Some(misplaced));
    assert_eq!(rt; accepter.phase(), phase);
}

/// That the sketches at a level follow each other, and that no other follows in the phase behind them.
fn assert_sketches(rt: &impl Abort, alloc: Global, level: u32, last: Phase) {
    let mut accepter = accepter_at(rt, alloc, level);
    assert_no_extension(rt, &mut accepter, Phase::Idle);
    let first = first_of(rt, alloc, &mut accepter, 3, 0, &[5, 7, 9]);
    assert_sketch(rt, alloc, &first, 0, 8);
    let second = extension_of(rt, &mut accepter);
    assert_sketch(rt, alloc, &second, 8, 8);
    if level == 2 {
        let third = extension_of(rt, &mut accepter);
        assert_sketch(rt, alloc, &third, 16, 16);
    }
    assert_no_extension(rt, &mut accepter, last);
}

#[test]
fn sketches_follow_each_other_until_the_level(rt: HostRuntime) {
    assert_sketches(&rt, rt.alloc(), 1, Phase::SentExt);
    assert_sketches(&rt, rt.alloc(), 2, Phase::SentExt2);
}

/// So many short ids, from 1 on.
fn shorts_to(alloc: Global, count: u32) -> Result<Vec<u32>, AllocError> {
    let mut shorts = Vec::new(alloc);
    for i in 0..count {
        shorts.push(i + 1)?;
    }
    Ok(shorts)
}

/// That a set of so many ids is answered with a sketch of this capacity, and that nothing is announced where nothing is asked.
fn assert_capacity(rt: &impl Abort, alloc: Global, size: u16, local: u32, q: u16, capacity: usize) {
    let shorts = shorts_to(alloc, local).expect(rt, "memory");
    let mut accepter = accepter_at(rt, alloc, 2);
    let sketch = first_of(rt, alloc, &mut accepter, size, q, shorts.as_slice());
    assert_eq!(rt; sketch.as_slice().len() / 4, capacity);
    assert_eq!(rt; sketch.as_slice().len() % 4, 0);
    let outs = accepter
        .on_reconcildiff(true, &listed(rt, alloc, &[]))
        .expect(rt, "an answer");
    assert!(rt; outs.as_slice().is_empty());
}

#[test]
fn sketches_are_as_large_as_the_rule_says(rt: HostRuntime) {
    assert_capacity(&rt, rt.alloc(), 0, 0, 0, 8);
    assert_capacity(&rt, rt.alloc(), 100, 120, 8_192, 46);
    assert_capacity(&rt, rt.alloc(), 10_000, 0, 0, 1_024);
}

/// That a difference is refused so, and changes nothing.
fn assert_refused(
    rt: &impl Abort,
    accepter: &mut Responder<Gf32>,
    success: bool,
    asks: &Shorts,
    fault: ResponderFault,
) {
    let phase = accepter.phase();
    let rounds = accepter.reports().len();
    assert_eq!(rt; accepter.on_reconcildiff(success, asks).err(), Some(fault));
    assert_eq!(rt; accepter.phase(), phase);
    assert_eq!(rt; accepter.reports().len(), rounds);
}

/// That a request is refused behind one that was answered, and takes no id out.
fn assert_busy(rt: &impl Abort, alloc: Global, accepter: &mut Responder<Gf32>) {
    let mut later = set_with(rt, alloc, &[8]);
    let misplaced = ResponderFault::Misplaced {
        command: Name::ReqRecon,
        phase: Phase::Sent,
    };
    assert_eq!(rt;
        accepter.on_reqrecon(4, 0, &mut later).err(),
        Some(misplaced)
    );
    assert_eq!(rt; later.len(), 1);
}

#[test]
fn differences_are_refused_in_order(rt: HostRuntime) {
    let alloc = rt.alloc();
    let mut accepter = accepter_at(&rt, alloc, 2);
    let idle = ResponderFault::Misplaced {
        command: Name::ReconcilDiff,
        phase: Phase::Idle,
    };
    assert_refused(&rt, &mut accepter, true, &listed(&rt, alloc, &[]), idle);
    first_of(&rt, alloc, &mut accepter, 4, 0, &[1, 2, 3, 3]);
    assert_busy(&rt, alloc, &mut accepter);
    for (success, asks, fault) in [
        (true, [9].as_slice(), ResponderFault::UnknownShortId(9)),
        (true, &[1, 1, 9], ResponderFault::AskRepeated(1)),
        (true, &[1, 9, 1], ResponderFault::UnknownShortId(9)),
        (true, &[3], ResponderFault::UnknownShortId(3)),
        (false, &[1], ResponderFault::AsksOnFailure(1)),
    ] {
        let asks = listed(&rt, alloc, asks);
        assert_refused(&rt, &mut accepter, success, &asks, fault);
    }
}

/// What is announced where a difference ends a round with so many extensions.
fn ended(
    rt: &impl Abort,
    accepter: &mut Responder<Gf32>,
    extensions: u32,
    success: bool,
    asks: &Shorts,
) -> Outs {
    for _ in 0..extensions {
        extension_of(rt, accepter);
    }
    let outs = accepter
        .on_reconcildiff(success, asks)
        .expect(rt, "an answer");
    assert_eq!(rt; accepter.phase(), Phase::Idle);
    outs
}

/// That the last round had the capacity 8, this ending and these asks.
fn assert_report(rt: &impl Abort, accepter: &Responder<Gf32>, ending: Ending, asks: &Shorts) {
    let report = accepter.reports().last().expect(rt, "a report");
    assert_eq!(rt; report.capacity, 8);
    assert_eq!(rt; report.ending, ending);
    assert_eq!(rt; report.answered.as_slice(), asks.as_slice());
}

/// That the ids at these indices are announced.
fn assert_announced(rt: &impl Abort, alloc: Global, outs: &Outs, indices: &[usize]) {
    let ids = announced_in(alloc, outs).expect(rt, "memory");
    let wanted = ids_at(alloc, indices).expect(rt, "memory");
    assert!(rt; ids.as_slice() == wanted.as_slice());
}

#[test]
fn differences_end_rounds(rt: HostRuntime) {
    let alloc = rt.alloc();
    let mut accepter = accepter_at(&rt, alloc, 2);
    for (extensions, success, asks, announced, ending) in [
        (0, true, [2].as_slice(), [1, 2, 4].as_slice(), Ending::First),
        (1, true, &[], &[2, 4], Ending::Extension),
        (2, true, &[2, 1], &[0, 1, 2, 4], Ending::Extension2),
        (2, false, &[], &[0, 1, 2, 3, 4], Ending::Fallback),
    ] {
        first_of(&rt, alloc, &mut accepter, 5, 0, &[1, 2, 3, 4, 3]);
        let asks = listed(&rt, alloc, asks);
        let outs = ended(&rt, &mut accepter, extensions, success, &asks);
        assert_report(&rt, &accepter, ending, &asks);
        assert_announced(&rt, alloc, &outs, announced);
    }
    assert_eq!(rt; accepter.reports().len(), 4);
}
