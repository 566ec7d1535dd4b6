//! What a node answers to its peer, whatever that sends: whole, and one byte at a time.

use crate::lines::{
    ACCEPTER_OFFER, GREETING, NO_RELAY, OFFER, OLD_VERSION, OPENER_OFFER, VERACK, VERSION,
    WTXIDRELAY, frames_of, text_of,
};
use crate::nodes::{added, node_over, told_of};
use node_rules::{Added, Role};
use pair_rules::Side;
use relay_node::{Node, Stop};
use std::alloc::Global;
use std::process::Abort;
use stream_text::packed_frames;

/// What an accepter answers to its peer.
struct Case {
    /// The transactions of its pool.
    txs: &'static [&'static str],
    /// What its peer sends, in lines.
    lines: &'static [&'static str],
    /// What comes behind the frames of those lines.
    behind: &'static [u8],
    /// What is then told of it.
    told: &'static [&'static str],
}

const HANDSHAKES: &[Case] = &[
    Case {
        txs: &[],
        lines: &[OLD_VERSION],
        behind: b"",
        told: &["phase b greeting", "pool 0", "refused old peer 70015"],
    },
    Case {
        txs: &[],
        lines: &[NO_RELAY],
        behind: b"",
        told: &["phase b greeting", "pool 0", "refused peer no relay"],
    },
    Case {
        txs: &[],
        lines: &[WTXIDRELAY],
        behind: b"",
        told: &["phase b greeting", "pool 0", "refused handshake wtxidrelay"],
    },
    Case {
        txs: &[],
        lines: &[VERSION, OFFER, "sendtxrcncl 0 0000000000000003"],
        behind: b"",
        told: &[
            VERSION,
            WTXIDRELAY,
            ACCEPTER_OFFER,
            VERACK,
            "phase b greeted",
            "pool 0",
            "refused zero version",
        ],
    },
    Case {
        txs: &[],
        lines: &[VERSION, OFFER, OFFER],
        behind: b"",
        told: &[
            VERSION,
            WTXIDRELAY,
            ACCEPTER_OFFER,
            VERACK,
            "phase b greeted",
            "pool 0",
            "refused handshake sendtxrcncl",
        ],
    },
    Case {
        txs: &[],
        lines: &[VERSION, VERACK],
        behind: b"",
        told: &[
            VERSION,
            WTXIDRELAY,
            ACCEPTER_OFFER,
            VERACK,
            "phase b greeted",
            "pool 0",
            "refused no wtxidrelay",
        ],
    },
    // a peer that offers no reconciliation
    Case {
        txs: &[],
        lines: &[VERSION, WTXIDRELAY, VERACK, "reqrecon 0 0"],
        behind: b"",
        told: &[
            VERSION,
            WTXIDRELAY,
            ACCEPTER_OFFER,
            VERACK,
            "phase b idle",
            "pool 0",
            "refused misplaced reqrecon in idle",
        ],
    },
    Case {
        txs: &[],
        lines: &[VERSION, WTXIDRELAY, OFFER, VERACK, VERSION],
        behind: b"",
        told: &[
            VERSION,
            WTXIDRELAY,
            ACCEPTER_OFFER,
            VERACK,
            "phase b idle",
            "pool 0",
            "refused handshake version",
        ],
    },
];

const ROUNDS: &[Case] = &[
    Case {
        txs: &[],
        lines: &[VERSION, WTXIDRELAY, OFFER, VERACK, "sketch -"],
        behind: b"",
        told: &[
            VERSION,
            WTXIDRELAY,
            ACCEPTER_OFFER,
            VERACK,
            "phase b idle",
            "pool 0",
            "refused misplaced sketch in idle",
        ],
    },
    // the header of a `tx` of 4,000,001 bytes is refused before any of them comes
    Case {
        txs: &[],
        lines: &[VERSION, WTXIDRELAY, OFFER, VERACK],
        behind: b"\xf9\xbe\xb4\xd9tx\x00\x00\x00\x00\x00\x00\x00\x00\x00\x00\x01\x09=\x00]\xf6\xe0\xe2",
        told: &[
            VERSION,
            WTXIDRELAY,
            ACCEPTER_OFFER,
            VERACK,
            "phase b idle",
            "pool 0",
            "refused too long at 203: 4000001",
        ],
    },
    // the payload of a `sketch` whose length isn't in its shortest spelling
    Case {
        txs: &[],
        lines: &[VERSION, WTXIDRELAY, OFFER, VERACK],
        behind: b"\xf9\xbe\xb4\xd9sketch\x00\x00\x00\x00\x00\x00\x07\x00\x00\x00xMz\x22\xfd\x04\x00\x00\x00\x00\x00",
        told: &[
            VERSION,
            WTXIDRELAY,
            ACCEPTER_OFFER,
            VERACK,
            "phase b idle",
            "pool 0",
            "refused payload of sketch at 0: not minimal",
        ],
    },
    Case {
        txs: &[],
        lines: &[
            VERSION,
            WTXIDRELAY,
            OFFER,
            VERACK,
            "reqrecon 0 0",
            "reqrecon 0 0",
        ],
        behind: b"",
        told: &[
            VERSION,
            WTXIDRELAY,
            ACCEPTER_OFFER,
            VERACK,
            EMPTY_SKETCH,
            "phase b sent",
            "pool 0",
            "refused misplaced reqrecon in sent",
        ],
    },
    Case {
        txs: &[],
        lines: &[
            VERSION,
            WTXIDRELAY,
            OFFER,
            VERACK,
            "reqrecon 0 0",
            "reconcildiff 1 00000009",
        ],
        behind: b"",
        told: &[
            VERSION,
            WTXIDRELAY,
            ACCEPTER_OFFER,
            VERACK,
            EMPTY_SKETCH,
            "phase b sent",
            "pool 0",
            "refused unknown short id 00000009",
        ],
    },
    Case {
        txs: &[],
        lines: &[
            VERSION,
            WTXIDRELAY,
            OFFER,
            VERACK,
            "reqrecon 0 0",
            "reconcildiff 0 00000001",
        ],
        behind: b"",
        told: &[
            VERSION,
            WTXIDRELAY,
            ACCEPTER_OFFER,
            VERACK,
            EMPTY_SKETCH,
            "phase b sent",
            "pool 0",
            "refused asks on failure 1",
        ],
    },
];

/// The sums of no set, up to the capacity of 8.
const EMPTY_SKETCH: &str =
    "sketch 0000000000000000000000000000000000000000000000000000000000000000";

/// Entries of the transactions 'hello' and 'abc', of kinds 5 and 1.
const ASKS: &str =
    "getdata 5:9595c9df90075148eb06860365df33584b75bff782a510c6cd4883a419833d50 5:9595c9df90075148eb06860365df33584b75bff782a510c6cd4883a419833d50 1:9595c9df90075148eb06860365df33584b75bff782a510c6cd4883a419833d50";

const NOT_FOUND: &str =
    "notfound 5:9595c9df90075148eb06860365df33584b75bff782a510c6cd4883a419833d50 1:9595c9df90075148eb06860365df33584b75bff782a510c6cd4883a419833d50";

const ANNOUNCED: &str =
    "inv 1:4f8b42c22dd3729b519ba6f68d2da7cc5b2d606d05daed5ad5128cc03e6c6358 5:4f8b42c22dd3729b519ba6f68d2da7cc5b2d606d05daed5ad5128cc03e6c6358 5:4f8b42c22dd3729b519ba6f68d2da7cc5b2d606d05daed5ad5128cc03e6c6358";

const WANTED: &str = "getdata 5:4f8b42c22dd3729b519ba6f68d2da7cc5b2d606d05daed5ad5128cc03e6c6358";

const TRANSACTIONS: &[Case] = &[
    // served once
    Case {
        txs: &["hello"],
        lines: &[VERSION, WTXIDRELAY, OFFER, VERACK, ASKS],
        behind: b"",
        told: &[
            VERSION,
            WTXIDRELAY,
            ACCEPTER_OFFER,
            VERACK,
            "tx 68656c6c6f",
            NOT_FOUND,
            "phase b idle",
            "pool 1",
        ],
    },
    // asked for once; one that was not asked for is passed over
    Case {
        txs: &[],
        lines: &[
            VERSION,
            WTXIDRELAY,
            OFFER,
            VERACK,
            ANNOUNCED,
            "tx 68656c6c6f",
        ],
        behind: b"",
        told: &[
            VERSION,
            WTXIDRELAY,
            ACCEPTER_OFFER,
            VERACK,
            WANTED,
            "phase b idle",
            "pool 0",
        ],
    },
];

/// A first sketch for a waiting opener with an empty set.
struct SketchCase {
    /// How many bytes it has. Each is 0.
    len: usize,
    /// What is then told of the opener.
    told: &'static [&'static str],
}

const SKETCHES: &[SketchCase] = &[
    SketchCase {
        len: 5,
        told: &[
            VERSION,
            WTXIDRELAY,
            OPENER_OFFER,
            VERACK,
            "reqrecon 0 8192",
            "phase a waiting",
            "pool 0",
            "refused sketch length 5 wanted 0",
        ],
    },
    SketchCase {
        len: 4_100,
        told: &[
            VERSION,
            WTXIDRELAY,
            OPENER_OFFER,
            VERACK,
            "reqrecon 0 8192",
            "phase a waiting",
            "pool 0",
            "refused sketch length 4100 wanted 0",
        ],
    },
    // an empty one ends the round
    SketchCase {
        len: 0,
        told: &[
            VERSION,
            WTXIDRELAY,
            OPENER_OFFER,
            VERACK,
            "reqrecon 0 8192",
            "reconcildiff 0",
            "ping 1",
            "round 1 fallback 0 0 0",
            "phase a barrier",
            "pool 0",
        ],
    },
];

/// What comes behind an end.
const PIECES: &[&[u8]] = &[b"", b"\xf9\xbe", b"\x00"];

/// A node that has answered a stop answers it again to whatever comes.
fn refuses_each(rt: &impl Abort, node: &mut Node, stop: Stop) {
    for piece in PIECES {
        assert!(rt; node.take(piece).err() == Some(stop));
    }
}

/// A node that has ended so stays so: it holds no bytes, and has no transaction more and no round.
fn stays_ended(rt: &impl Abort, alloc: Global, node: &mut Node, stop: Stop) {
    refuses_each(rt, node, stop);
    assert!(rt; added(rt, alloc, node, b"more") == Added::Ended);
    assert!(rt; !node.begin_round().expect(rt, "memory"));
    assert!(rt; node.held() == 0);
    assert!(rt; node.end().map(Stop::Ended) == Some(stop));
}

/// Hands bytes to a node one at a time. It ends at none of them.
fn take_each(rt: &impl Abort, node: &mut Node, bytes: &[u8]) {
    for piece in bytes.chunks(1) {
        node.take(piece).expect(rt, "no end");
    }
}

/// Hands the last bytes to a node. Where it refuses them, it stays ended.
fn take_last(rt: &impl Abort, alloc: Global, node: &mut Node, bytes: &[u8]) {
    match node.take(bytes) {
        Ok(()) => assert!(rt; node.end().is_none()),
        Err(stop) => stays_ended(rt, alloc, node, stop),
    }
}

/// Hands a stream to a node, first one byte at a time, and from an offset on whole.
fn take_from(rt: &impl Abort, alloc: Global, node: &mut Node, bytes: &[u8], offset: usize) {
    let (front, last) = bytes.split_at(offset.min(bytes.len()));
    take_each(rt, node, front);
    take_last(rt, alloc, node, last);
}

/// What is told of an accepter behind a stream.
fn accepter_told(
    rt: &impl Abort,
    alloc: Global,
    txs: &[&str],
    bytes: &[u8],
    offset: usize,
) -> Vec<u8> {
    let mut node = node_over(rt, alloc, Role::Accepter, txs);
    take_from(rt, alloc, &mut node, bytes, offset);
    told_of(rt, alloc, Side::B, &node)
}

/// The stream of a case.
fn stream_of(rt: &impl Abort, alloc: Global, case: &Case) -> Vec<u8> {
    let mut bytes = frames_of(rt, alloc, case.lines);
    bytes.extend_from_slice(case.behind).expect(rt, "memory");
    bytes
}

/// The same answer comes to a stream whole, and one byte at a time.
fn answers_case(rt: &impl Abort, alloc: Global, case: &Case) {
    let told = text_of(rt, alloc, case.told);
    let bytes = stream_of(rt, alloc, case);
    let bytes = bytes.as_slice();
    for offset in [0, bytes.len().saturating_sub(1)] {
        let answer = accepter_told(rt, alloc, case.txs, bytes, offset);
        assert_eq!(rt; answer.as_slice(), told.as_slice());
    }
}

fn answers_each(rt: &impl Abort, alloc: Global, cases: &[Case]) {
    for case in cases {
        answers_case(rt, alloc, case);
    }
}

#[test]
fn a_handshake_is_judged(rt: HostRuntime) {
    answers_each(&rt, rt.alloc(), HANDSHAKES);
}

#[test]
fn an_accepter_answers_and_refuses(rt: HostRuntime) {
    answers_each(&rt, rt.alloc(), ROUNDS);
}

#[test]
fn transactions_are_asked_for_and_served(rt: HostRuntime) {
    answers_each(&rt, rt.alloc(), TRANSACTIONS);
}

/// Brings an opener to where it waits for the first sketch of its first round.
fn begin_first(rt: &impl Abort, alloc: Global, node: &mut Node) {
    let greeting = frames_of(rt, alloc, GREETING);
    node.take(greeting.as_slice()).expect(rt, "no end");
    assert!(rt; node.begin_round().expect(rt, "memory"));
}

const NO_TRANSACTIONS: &[&str] = &[];

/// What is told of a waiting opener with an empty pool behind a stream.
fn opener_told(rt: &impl Abort, alloc: Global, bytes: &[u8], offset: usize) -> Vec<u8> {
    let mut node = node_over(rt, alloc, Role::Opener, NO_TRANSACTIONS);
    begin_first(rt, alloc, &mut node);
    take_from(rt, alloc, &mut node, bytes, offset);
    told_of(rt, alloc, Side::A, &node)
}

/// The line of a sketch of so many bytes that are 0.
fn sketch_line(rt: &impl Abort, alloc: Global, len: usize) -> Vec<u8> {
    let mut line = b"sketch ".to_vec(alloc).expect(rt, "memory");
    for _ in 0..len {
        line.extend_from_slice(b"00").expect(rt, "memory");
    }
    if len == 0 {
        line.push(b'-').expect(rt, "memory");
    }
    line
}

/// The same answer comes to a first sketch whole, and one byte at a time.
fn judges_case(rt: &impl Abort, alloc: Global, case: &SketchCase) {
    let told = text_of(rt, alloc, case.told);
    let line = sketch_line(rt, alloc, case.len);
    let bytes = packed_frames(alloc, line.as_slice()).expect(rt, "a line");
    let bytes = bytes.as_slice();
    for offset in [0, bytes.len().saturating_sub(1)] {
        let answer = opener_told(rt, alloc, bytes, offset);
        assert_eq!(rt; answer.as_slice(), told.as_slice());
    }
}

#[test]
fn a_first_sketch_is_judged(rt: HostRuntime) {
    let alloc = rt.alloc();
    for case in SKETCHES {
        judges_case(&rt, alloc, case);
    }
}
