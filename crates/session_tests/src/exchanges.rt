//! The commands `sync` and `serve` over a wire and a shelf in memory, with what a peer of this project gives.

ghost use Rattle.std.specs.Prelude.{◌≡◌, false};

use crate::tests::given;
use erlay_base::{MemShelf, MemSink, MemSource, MemWire};
use erlay_cli::{Chance, run};
use std::alloc::Global;
use std::process::Abort;

/// The pool of the opener, that of the accepter, and what each has behind a round.
const OPENER: &[u8] =
    b"pool 2 1\n9595c9df90075148eb06860365df33584b75bff782a510c6cd4883a419833d50 68656c6c6f\n";

const ACCEPTER: &[u8] =
    b"pool 2 1\n4f8b42c22dd3729b519ba6f68d2da7cc5b2d606d05daed5ad5128cc03e6c6358 616263\n";

const OPENER_AFTER: &[u8] =
    b"pool 2 2\n9595c9df90075148eb06860365df33584b75bff782a510c6cd4883a419833d50 68656c6c6f\n4f8b42c22dd3729b519ba6f68d2da7cc5b2d606d05daed5ad5128cc03e6c6358 616263\n";

const ACCEPTER_AFTER: &[u8] =
    b"pool 2 2\n4f8b42c22dd3729b519ba6f68d2da7cc5b2d606d05daed5ad5128cc03e6c6358 616263\n9595c9df90075148eb06860365df33584b75bff782a510c6cd4883a419833d50 68656c6c6f\n";

/// Where the outside fails: how many bytes come, and the numbers of the calls of the wire, the shelf and the output that
/// fail, 0 for none.
#[derive(Clone, Copy, Debug)]
struct Faults {
    len: usize,
    wire: u64,
    shelf: u64,
    output: u64,
}

/// What a run left: its exit code, what it wrote and sent, and what the shelf has under `out`.
#[derive(Drop)]
struct Ending {
    code: u8,
    text: Vec<u8>,
    sent: Vec<u8>,
    saved: Option<Vec<u8>>,
}

/// The numbers of the calls that fail.
fn calls_of(rt: &impl Abort, alloc: Global, failing: u64) -> Vec<u64> {
    let mut calls = Vec::new(alloc);
    if failing > 0 {
        calls.push(failing).expect(rt, "memory");
    }
    calls
}

/// The words of a command.
fn words_of(rt: &impl Abort, alloc: Global, text: &str) -> Vec<String> {
    let mut words = Vec::new(alloc);
    for word in text.split(' ') {
        let word = word.to_string(alloc).expect(rt, "memory");
        words.push(word).expect(rt, "memory");
    }
    words
}

/// A wire over which the front of these bytes comes, one by one.
fn wire_of(rt: &impl Abort, alloc: Global, coming: &[u8], faults: Faults) -> MemWire
    ensures { result.is_linked ≡ false }
{
    let front = &coming[..faults.len.min(coming.len())];
    let bytes = front.to_vec(alloc).expect(rt, "memory");
    MemWire::new(alloc, bytes, 1, calls_of(rt, alloc, faults.wire))
}

/// A shelf with a text under the name `pool`.
fn shelf_of(rt: &impl Abort, alloc: Global, text: &[u8], failing: u64) -> MemShelf {
    let name = String::from_str(alloc, "pool").expect(rt, "memory");
    let text = text.to_vec(alloc).expect(rt, "memory");
    let mut held = Vec::new(alloc);
    held.push((name, text)).expect(rt, "memory");
    MemShelf::new(alloc, held, calls_of(rt, alloc, failing))
}

/// What chance gives to the opener and to the accepter of the tests.
fn chance_of(words: &str) -> Chance {
    let salt = if words.starts_with("sync") { 1 } else { 2 };
    Chance {
        salt,
        nonce: 0,
        time: 0,
    }
}

/// The exit code of a run with these words.
fn code_of(
    rt: &impl Abort,
    alloc: Global,
    words: &str,
    output: &mut MemSink,
    wire: &mut MemWire,
    shelf: &mut MemShelf,
) -> u8
    requires { wire.old.is_linked ≡ false }
{
    let mut input = MemSource::new(Vec::new(alloc), 1, Vec::new(alloc));
    let list = words_of(rt, alloc, words);
    let chance = chance_of(words);
    run(
        alloc,
        list.as_slice(),
        chance,
        &mut input,
        output,
        wire,
        shelf,
    )
    .code()
}

/// A copy of bytes, where there are some.
fn copy(rt: &impl Abort, alloc: Global, bytes: Option<&[u8]>) -> Option<Vec<u8>> {
    bytes.map(|bytes| bytes.to_vec(alloc).expect(rt, "memory"))
}

/// A run with these words over the text of a pool and what a peer sends.
fn ending_of(
    rt: &impl Abort,
    alloc: Global,
    words: &str,
    pool: &[u8],
    coming: &[u8],
    faults: Faults,
) -> Ending {
    let mut wire = wire_of(rt, alloc, coming, faults);
    let mut shelf = shelf_of(rt, alloc, pool, faults.shelf);
    let mut output = MemSink::new(alloc, usize::MAX, calls_of(rt, alloc, faults.output));
    let code = code_of(rt, alloc, words, &mut output, &mut wire, &mut shelf);
    Ending {
        code,
        text: output.written().to_vec(alloc).expect(rt, "memory"),
        sent: wire.sent().to_vec(alloc).expect(rt, "memory"),
        saved: copy(rt, alloc, shelf.content("out")),
    }
}

/// No call fails, and all bytes come.
const NONE: Faults = Faults {
    len: usize::MAX,
    wire: 0,
    shelf: 0,
    output: 0,
};

/// Words, a pool file, faults, and what comes of them: an exit code, a text, and what is saved.
type Case = (
    &'static str,
    &'static [u8],
    Faults,
    u8,
    &'static str,
    Option<&'static [u8]>,
);

const SYNCS: &[Case] = &[
    (
        "sync peer pool out",
        OPENER,
        NONE,
        0,
        "round 1 first 8 1 2\npool 2\n",
        Some(OPENER_AFTER),
    ),
    // a pool file of the first form, and a connection cut in a round
    (
        "sync peer pool out",
        OPENER,
        Faults { len: 203, ..NONE },
        9,
        "truncated waiting\n",
        None,
    ),
    (
        "sync peer pool out",
        OPENER,
        Faults { wire: 1, ..NONE },
        7,
        "link fault\n",
        None,
    ),
    (
        "sync peer pool out",
        OPENER,
        Faults { wire: 2, ..NONE },
        7,
        "link fault\n",
        None,
    ),
    (
        "sync peer pool out",
        OPENER,
        Faults { shelf: 1, ..NONE },
        8,
        "shelf fault\n",
        None,
    ),
    (
        "sync peer other out",
        OPENER,
        NONE,
        8,
        "shelf fault\n",
        None,
    ),
    (
        "sync peer pool out",
        OPENER,
        Faults { shelf: 3, ..NONE },
        8,
        "shelf fault\n",
        None,
    ),
    (
        "sync peer pool out",
        OPENER,
        Faults { output: 1, ..NONE },
        6,
        "",
        Some(OPENER_AFTER),
    ),
    (
        "sync peer pool out",
        b"pool 2 2\n",
        NONE,
        2,
        "bad input 0: line count\n",
        None,
    ),
    (
        "sync peer pool out",
        b"9595c9df90075148eb06860365df33584b75bff782a510c6cd4883a419833d50 616263\n",
        NONE,
        2,
        "bad input 1: id 9595c9df90075148eb06860365df33584b75bff782a510c6cd4883a419833d50 not 4f8b42c22dd3729b519ba6f68d2da7cc5b2d606d05daed5ad5128cc03e6c6358\n",
        None,
    ),
];

const SERVES: &[Case] = &[
    (
        "serve here pool out",
        ACCEPTER,
        NONE,
        0,
        "listening\nround 1 first 8 1 1\npool 2\n",
        Some(ACCEPTER_AFTER),
    ),
    (
        "serve here pool out",
        ACCEPTER,
        Faults { len: 0, ..NONE },
        9,
        "listening\ntruncated greeting\n",
        None,
    ),
    (
        "serve here pool out",
        ACCEPTER,
        Faults { wire: 1, ..NONE },
        7,
        "link fault\n",
        None,
    ),
    (
        "serve here pool out",
        ACCEPTER,
        Faults { wire: 2, ..NONE },
        7,
        "listening\nlink fault\n",
        None,
    ),
    (
        "serve here pool out",
        ACCEPTER,
        Faults { output: 1, ..NONE },
        6,
        "",
        None,
    ),
    (
        "serve here pool out",
        ACCEPTER,
        Faults { output: 2, ..NONE },
        6,
        "listening\n",
        Some(ACCEPTER_AFTER),
    ),
    (
        "serve here pool out",
        ACCEPTER,
        Faults { shelf: 3, ..NONE },
        8,
        "listening\nshelf fault\n",
        None,
    ),
];

/// A peer that begins with `verack`.
const VERACK: &[u8] = b"\xf9\xbe\xb4\xd9verack\0\0\0\0\0\0\0\0\0\0\x5d\xf6\xe0\xe2";

const REFUSAL: Case = (
    "serve here pool out",
    ACCEPTER,
    NONE,
    4,
    "listening\nrefused handshake verack\n",
    None,
);

/// Runs a case over these bytes, and compares what it sent with what a peer was given.
fn assert_case(rt: &impl Abort, alloc: Global, case: &Case, coming: &[u8], given: &[u8]) {
    let (words, pool, faults, code, text, saved) = *case;
    let ending = ending_of(rt, alloc, words, pool, coming, faults);
    assert!(rt;
        ending.text.as_slice() == text.as_bytes(),
        "{words} {faults:?}"
    );
    assert!(rt; ending.code == code, "{words} {faults:?}");
    assert!(rt; ending.saved.as_deref() == saved, "{words} {faults:?}");
    assert!(rt;
        given.starts_with(ending.sent.as_slice()),
        "{words} {faults:?}"
    );
}

#[test]
fn synchronizations(rt: HostRuntime) {
    let (by_opener, by_accepter) = given(&rt, rt.alloc());
    for case in SYNCS {
        assert_case(
            &rt,
            rt.alloc(),
            case,
            by_accepter.as_slice(),
            by_opener.as_slice(),
        );
    }
    for case in SERVES {
        assert_case(
            &rt,
            rt.alloc(),
            case,
            by_opener.as_slice(),
            by_accepter.as_slice(),
        );
    }
    assert_case(&rt, rt.alloc(), &REFUSAL, VERACK, &[]);
}

/// Whether a call of the wire of this number is made; where it is, it fails: nothing is saved, and what was sent is a front
/// of what is sent else.
fn is_made(rt: &impl Abort, alloc: Global, call: u64, coming: &[u8], sent: &[u8]) -> bool {
    let faults = Faults { wire: call, ..NONE };
    let ending = ending_of(rt, alloc, "sync peer pool out", OPENER, coming, faults);
    if ending.code == 0 {
        return false;
    }
    assert!(rt; ending.code == 7, "{call}");
    assert!(rt;
        ending.text.as_slice() == b"link fault\n".as_slice(),
        "{call}"
    );
    assert!(rt; ending.saved.is_none(), "{call}");
    assert!(rt; sent.starts_with(ending.sent.as_slice()), "{call}");
    true
}

/// Each call of the wire failing once.
#[test]
fn calls_of_the_wire_failing(rt: HostRuntime) {
    let (sent, coming) = given(&rt, rt.alloc());
    let mut made = 0;
    for call in 1..1000 {
        if is_made(&rt, rt.alloc(), call, coming.as_slice(), sent.as_slice()) {
            made = call;
        }
    }
    // at least a receive for each byte that comes
    assert!(rt; made > coming.len() as u64);
}
