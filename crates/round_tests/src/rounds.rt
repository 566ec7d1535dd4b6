//! Random sets, whose differences lie below, at and above each capacity.

use crate::differences::{announcement, asks_of, difference_size, ending_at};
use crate::made::{Pair, set_of};
use crate::random::Random;
use base_types::{Bytes, Hash32, Shorts};
use clmul_lanes::Lane32;
use initiator::Initiator;
use pool_rules::{Ending, Report};
use recon_set::ReconSet;
use responder::Responder;
use sketch_answers::take_sketch;
use std::alloc::{AllocError, Global};
use std::process::Abort;
use wire_rules::{Message, Outs, Phase};

/// The level, the coefficient, how many pairs both sides have, and how many each has alone beside two that it sets aside.
#[derive(Clone, Copy)]
struct Case {
    level: u32,
    q: u16,
    shared: usize,
    ours: usize,
    theirs: usize,
}

/// The pairs of both sides.
fn pairs_of(
    alloc: Global,
    random: &mut Random,
    case: Case,
) -> Result<(Vec<Pair>, Vec<Pair>), AllocError> {
    let shared = random.pairs(alloc, case.shared)?;
    let ours = random.side(alloc, shared.as_slice(), case.ours)?;
    let theirs = random.side(alloc, shared.as_slice(), case.theirs)?;
    Ok((ours, theirs))
}

/// Both machines of a round, and both sets.
#[derive(Drop)]
struct Sides {
    opener: Initiator<Lane32>,
    accepter: Responder<Lane32>,
    own: ReconSet<Lane32>,
    other: ReconSet<Lane32>,
}

/// New machines, and the sets of these pairs.
fn sides_of(rt: &impl Abort, alloc: Global, case: Case, ours: &[Pair], theirs: &[Pair]) -> Sides {
    assert!(rt; 1 <= case.level && case.level <= 2);
    Sides {
        opener: Initiator::new(alloc, case.q, case.level),
        accepter: Responder::new(alloc, case.level),
        own: set_of(rt, alloc, ours),
        other: set_of(rt, alloc, theirs),
    }
}

/// The size and the coefficient that the opener asks with.
fn requested(
    rt: &impl Abort,
    opener: &mut Initiator<Lane32>,
    own: &ReconSet<Lane32>,
) -> (u16, u16) {
    match opener.begin(own.len() as u16) {
        Some(Message::ReqRecon { size, q }) => (size, q),
        _ => rt.abort(),
    }
}

/// The bytes of a sketch message.
fn sketch_in(rt: &impl Abort, message: Message) -> Bytes {
    match message {
        Message::Sketch(bytes) => bytes,
        _ => rt.abort(),
    }
}

/// Whether an extension is asked for, and nothing else.
fn asks_extension(outs: &Outs) -> bool {
    matches!(outs.as_slice(), [Message::ReqSketchExt])
}

impl Sides {
    /// The sketch that the accepter answers the opener's request with.
    fn first(&mut self, rt: &impl Abort) -> Bytes {
        let (size, q) = requested(rt, &mut self.opener, &self.own);
        let message = self
            .accepter
            .on_reqrecon(size, q, &mut self.other)
            .expect(rt, "a sketch");
        sketch_in(rt, message)
    }

    /// An extension of the sketch.
    fn more(&mut self, rt: &impl Abort) -> Bytes {
        let message = self.accepter.on_reqsketchext().expect(rt, "an extension");
        sketch_in(rt, message)
    }

    /// What the opener sends on a sketch.
    fn taken(&mut self, rt: &impl Abort, alloc: Global, sketch: &Bytes) -> Outs {
        take_sketch(alloc, &mut self.opener, &mut self.own, sketch.as_slice()).expect(
            rt,
            "an answer",
        )
    }

    /// A round from its request to the opener's last message on a sketch.
    fn answered(&mut self, rt: &impl Abort, alloc: Global) -> Outs {
        let first = self.first(rt);
        let mut outs = self.taken(rt, alloc, &first);
        for _ in 0..2 {
            if asks_extension(&outs) {
                let more = self.more(rt);
                outs = self.taken(rt, alloc, &more);
            }
        }
        outs
    }

    /// That the round is over on both sides, and told alike.
    fn assert_over(&self, rt: &impl Abort, report: (Ending, u32)) {
        assert!(rt; self.own.is_empty());
        assert!(rt; self.other.is_empty());
        assert_eq!(rt; self.opener.phase(), Phase::Barrier);
        assert_eq!(rt; self.accepter.phase(), Phase::Idle);
        assert_eq!(rt; last_of(rt, self.accepter.reports()), report);
    }
}

/// The ending and the capacity of the last report.
fn last_of(rt: &impl Abort, reports: &[Report]) -> (Ending, u32) {
    let report = reports.last().expect(rt, "a report");
    (report.ending, report.capacity)
}

/// The ids that a message announces.
fn ids_in(alloc: Global, message: &Message) -> Result<Vec<Hash32>, AllocError> {
    let mut ids = Vec::new(alloc);
    if let Message::Inv(entries) = message {
        for entry in entries.as_slice() {
            ids.push(entry.id)?;
        }
    }
    Ok(ids)
}

/// The short ids that a difference asks for, which is to say so much of its success.
fn asks_in<'a>(rt: &impl Abort, message: &'a Message, found: bool) -> &'a Shorts {
    match message {
        Message::ReconcilDiff { success, asks } if *success == found => asks,
        _ => rt.abort(),
    }
}

/// That a message announces what a side is to announce: two at least, which it sets aside.
fn assert_announced(
    rt: &impl Abort,
    alloc: Global,
    message: &Message,
    own: &[Pair],
    other: &[Pair],
    all: bool,
) {
    let ids = ids_in(alloc, message).expect(rt, "memory");
    let wanted = announcement(alloc, own, other, all).expect(rt, "memory");
    assert!(rt; wanted.len() >= 2);
    assert!(rt; ids.as_slice() == wanted.as_slice());
}

/// That a difference asks for what it is to ask for.
fn assert_asked(
    rt: &impl Abort,
    alloc: Global,
    asks: &Shorts,
    ours: &[Pair],
    theirs: &[Pair],
    all: bool,
) {
    let wanted = asks_of(alloc, ours, theirs, all).expect(rt, "memory");
    assert_eq!(rt; asks.as_slice(), wanted.as_slice());
}

/// The one message that the accepter answers a difference with.
fn reply_to(
    rt: &impl Abort,
    accepter: &mut Responder<Lane32>,
    success: bool,
    asks: &Shorts,
) -> Outs {
    let outs = accepter
        .on_reconcildiff(success, asks)
        .expect(rt, "an answer");
    assert_eq!(rt; outs.as_slice().len(), 1);
    outs
}

/// That both sides announce what they are to announce, where the opener's last messages are these.
fn assert_told(
    rt: &impl Abort,
    alloc: Global,
    sides: &mut Sides,
    outs: &Outs,
    ours: &[Pair],
    theirs: &[Pair],
    all: bool,
) {
    let [difference, announced, Message::Ping(1)] = outs.as_slice() else {
        rt.abort()
    };
    assert_announced(rt, alloc, announced, ours, theirs, all);
    let asks = asks_in(rt, difference, !all);
    assert_asked(rt, alloc, asks, ours, theirs, all);
    let reply = reply_to(rt, &mut sides.accepter, !all, asks);
    for message in reply.as_slice() {
        assert_announced(rt, alloc, message, theirs, ours, all);
    }
}

/// Runs a round, and compares what both sides announce with what their sets differ in.
fn run(rt: &impl Abort, alloc: Global, random: &mut Random, case: Case) {
    let (ours, theirs) = pairs_of(alloc, random, case).expect(rt, "memory");
    let mut sides = sides_of(rt, alloc, case, ours.as_slice(), theirs.as_slice());
    let outs = sides.answered(rt, alloc);
    let report = last_of(rt, sides.opener.reports());
    let difference = difference_size(ours.as_slice(), theirs.as_slice());
    assert_eq!(rt;
        report.0,
        ending_at(case.level, report.1 as usize, difference)
    );
    let all = report.0 == Ending::Fallback;
    assert_told(
        rt,
        alloc,
        &mut sides,
        &outs,
        ours.as_slice(),
        theirs.as_slice(),
        all,
    );
    sides.assert_over(rt, report);
}

/// A difference of this size around a capacity of 8, and of its double and fourfold.
fn small(level: u32, difference: usize) -> Case {
    let ours = difference / 2;
    Case {
        level,
        q: 0,
        shared: 20,
        ours,
        theirs: difference - ours,
    }
}

/// A set of 100 against one of 120, of which the first has so many alone.
fn large(level: u32, ours: usize) -> Case {
    Case {
        level,
        q: 8192,
        shared: 98usize.saturating_sub(ours),
        ours,
        theirs: ours.saturating_add(20),
    }
}

#[test]
fn both_sides_announce_what_they_differ_in(rt: HostRuntime) {
    let alloc = rt.alloc();
    let mut random = Random(7);
    for level in [1, 2] {
        for difference in [0, 7, 8, 9, 15, 16, 17, 31, 32, 33, 40] {
            run(&rt, alloc, &mut random, small(level, difference));
        }
        for ours in [12, 13, 14, 35, 36, 37, 81, 82, 83] {
            run(&rt, alloc, &mut random, large(level, ours));
        }
    }
}
