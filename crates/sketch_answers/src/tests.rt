//! Rounds whose sketches are known, by their sums as bytes.

ghost use Rattle.std.specs.Prelude.{◌≤◌};

use super::*;
use base_types::Hash32;
use field_core::Gf32;
use pool_rules::{Ending, FIRST_COEFFICIENT, POOL_LIMIT};
use wire_rules::Message;

const ZEROS: &[u8] = &[0; 8];

const ZERO_ONE: &[u8] = b"\0\0\0\0\x01\0\0\0";

const ONES: &[u8] = b"\x01\0\0\0\x01\0\0\0";

/// Where the set that answers has six elements.
const SIX: &[u8] = b"\x01\0\0\0\x01\0\0\0\x01\0\0\0\0\0\0\0";

/// Where no set answers.
const NONE: &[u8] = b"\0\0\0\0\0\0\0\0\x01\0\0\0\0\0\0\0";

/// A set of ids with these short ids.
fn set_of(alloc: Global, shorts: &[u32]) -> Result<ReconSet<Gf32>, OutOfMemory> {
    let mut set = ReconSet::empty(alloc);
    for short in shorts {
        let id = Hash32([(*short & 0xff) as u8; 32]);
        if *short == 0 || set.contains(&id) || set.len() >= POOL_LIMIT {
            return Err(OutOfMemory);
        }
        set.add(id, *short)?;
    }
    Ok(set)
}

/// The machine behind these sketches of its first round, and what it sends at the last.
fn after(
    alloc: Global,
    level: u32,
    shorts: &[u32],
    sketches: &[&[u8]],
) -> Result<(Initiator<Gf32>, Outs), InitiatorFault>
    requires { (1 ≤ level) × (level ≤ 2) }
{
    let mut set = set_of(alloc, shorts)?;
    let mut machine = Initiator::new(alloc, FIRST_COEFFICIENT, level);
    let _request = machine.begin(0);
    let mut outs = Outs::from_vec(Vec::new(alloc));
    for skdata in sketches {
        outs = take_sketch(alloc, &mut machine, &mut set, skdata)?;
    }
    Ok((machine, outs))
}

/// What is sent: whether an extension is asked for, whether the round succeeded, how many ids are asked for and announced,
/// and the number of the ping.
#[derive(Clone, Copy, Debug, PartialEq, Eq)]
struct Reply {
    extends: bool,
    success: Option<bool>,
    asks: usize,
    announced: usize,
    ping: Option<u64>,
}

const EXTENDS: Reply = Reply {
    extends: true,
    success: None,
    asks: 0,
    announced: 0,
    ping: None,
};

fn reply_of(outs: &Outs) -> Reply {
    let mut reply = Reply {
        extends: false,
        success: None,
        asks: 0,
        announced: 0,
        ping: None,
    };
    for message in outs.as_slice() {
        match message {
            Message::ReqSketchExt => reply.extends = true,
            Message::ReconcilDiff { success, asks } => {
                reply.success = Some(*success);
                reply.asks = asks.as_slice().len();
            }
            Message::Inv(entries) => reply.announced = entries.as_slice().len(),
            Message::Ping(number) => reply.ping = Some(*number),
            _ => {}
        }
    }
    reply
}

#[test]
fn rounds_extend_end_and_fall_back(rt: HostRuntime) {
    let alloc = rt.alloc();
    let closed = |success: bool, asks: usize, announced: usize| Reply {
        extends: false,
        success: Some(success),
        asks,
        announced,
        ping: Some(1),
    };
    for (level, shorts, sketches, want) in [
        (1, [1, 2, 3].as_slice(), [ZEROS].as_slice(), EXTENDS),
        (1, &[1, 2, 3], &[ZEROS, ZEROS], closed(true, 0, 3)),
        (1, &[], &[ZERO_ONE], EXTENDS),
        (1, &[], &[ZERO_ONE, ONES], closed(false, 0, 0)),
        (1, &[1, 2], &[&[]], closed(false, 0, 2)),
        (2, &[], &[ZERO_ONE], EXTENDS),
        (2, &[], &[ZERO_ONE, ONES], EXTENDS),
        (2, &[], &[ZERO_ONE, ONES, SIX], closed(true, 6, 0)),
        (2, &[], &[ZERO_ONE, ONES, NONE], closed(false, 0, 0)),
    ] {
        assert!(rt; 1 <= level && level <= 2);
        let (_machine, outs) = after(alloc, level, shorts, sketches).expect(&rt, "a round");
        assert_eq!(rt; reply_of(&outs), want);
    }
}

#[test]
fn extensions_have_the_length_that_doubles_the_sketch(rt: HostRuntime) {
    let alloc = rt.alloc();
    for (level, sketches, len, wanted) in [
        (1, [ZERO_ONE, &[0; 4]].as_slice(), 4, 8),
        (2, &[ZERO_ONE, ONES, ZEROS], 8, 16),
    ] {
        assert!(rt; 1 <= level && level <= 2);
        let refused = after(alloc, level, &[], sketches);
        assert_eq!(rt;
            refused.err(),
            Some(InitiatorFault::SketchLength { len, wanted })
        );
    }
}

#[test]
fn the_second_extension_finds_six_elements(rt: HostRuntime) {
    let alloc = rt.alloc();
    let round = after(alloc, 2, &[], &[ZERO_ONE, ONES, SIX]);
    let (machine, _outs) = round.expect(&rt, "a round");
    assert_eq!(rt; machine.reports().len(), 1);
    let report = &machine.reports()[0];
    assert_eq!(rt; report.capacity, 2);
    assert_eq!(rt; report.ending, Ending::Extension2);
    assert!(rt; report.snapshot.as_slice().is_empty());
    assert_eq!(rt; report.answered.as_slice().len(), 6);
    let mut last = 0;
    for short in report.answered.as_slice() {
        assert!(rt; last < *short);
        last = *short;
        let r = Gf32::new(*short);
        let one = Gf32::new(1);
        let square = r.mul(r);
        let quadratic = square.add(r).add(one);
        let quartic = square.mul(square).add(square.mul(r)).add(one);
        assert_eq!(rt; quadratic.mul(quartic), Gf32::new(0));
    }
}
