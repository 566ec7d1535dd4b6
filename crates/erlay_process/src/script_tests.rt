//! The commands `sim` and `gen` from bytes to bytes.

use crate::tests::{Case, Streams, answer_each, outcome};
use std::alloc::{AllocError, Global};
use std::process::Abort;
use std::test::Fail;

/// Streams that move whole, of which no call fails.
const WHOLE: Streams = Streams {
    cut: 65536,
    failing_read: 0,
    failing_write: 0,
};

/// Scripts from the input, and one from a number, which is made whatever the input is.
const SCRIPTS: &[Case] = &[
    // a side each, and one round for both
    (
        "sim",
        b"a 68656c6c6f\nb 616263\ndrain\nround\ndrain\n",
        0,
        b"a round 1 first 8 1 2\nb round 1 first 8 1 1\nphase a idle\nphase b idle\npool a 2\n9595c9df90075148eb06860365df33584b75bff782a510c6cd4883a419833d50\n4f8b42c22dd3729b519ba6f68d2da7cc5b2d606d05daed5ad5128cc03e6c6358\npool b 2\n4f8b42c22dd3729b519ba6f68d2da7cc5b2d606d05daed5ad5128cc03e6c6358\n9595c9df90075148eb06860365df33584b75bff782a510c6cd4883a419833d50\ndrained yes\n",
    ),
    // digits of either case, CR and LF, empty lines, no LF at the end
    (
        "sim",
        b"\r\na 68656C6C6F\r\n\nb 616263\ndrain\n\n\nround\ndrain",
        0,
        b"a round 1 first 8 1 2\nb round 1 first 8 1 1\nphase a idle\nphase b idle\npool a 2\n9595c9df90075148eb06860365df33584b75bff782a510c6cd4883a419833d50\n4f8b42c22dd3729b519ba6f68d2da7cc5b2d606d05daed5ad5128cc03e6c6358\npool b 2\n4f8b42c22dd3729b519ba6f68d2da7cc5b2d606d05daed5ad5128cc03e6c6358\n9595c9df90075148eb06860365df33584b75bff782a510c6cd4883a419833d50\ndrained yes\n",
    ),
    // a transaction that comes before the sketch is in the round, one that comes behind it is in the next
    (
        "sim",
        b"drain\nround\nab 24\nab 4\na 68656c6c6f\nba 1000\nb 616263\ndrain\nround\ndrain\n",
        0,
        b"a round 1 first 8 1 1\na round 2 first 8 0 1\nb round 1 first 8 0 0\nb round 2 first 8 1 1\nphase a idle\nphase b idle\npool a 2\n9595c9df90075148eb06860365df33584b75bff782a510c6cd4883a419833d50\n4f8b42c22dd3729b519ba6f68d2da7cc5b2d606d05daed5ad5128cc03e6c6358\npool b 2\n4f8b42c22dd3729b519ba6f68d2da7cc5b2d606d05daed5ad5128cc03e6c6358\n9595c9df90075148eb06860365df33584b75bff782a510c6cd4883a419833d50\ndrained yes\n",
    ),
    // nothing happens: what both say first is on its way
    (
        "sim",
        b"",
        0,
        b"phase a greeting\nphase b greeting\npool a 0\npool b 0\ndrained no\n",
    ),
    (
        "gen 1",
        b"",
        0,
        b"a round 1 first 8 2 1\na round 2 first 8 0 0\nb round 1 first 8 1 0\nb round 2 first 8 0 0\nphase a idle\nphase b idle\npool a 2\npool b 2\ndrained yes\n",
    ),
    // the first faulty line; nothing of the lines before it happens
    ("sim", b"rounds", 2, b"bad input 1: form\n"),
    ("sim", b"round \n", 2, b"bad input 1: form\n"),
    ("sim", b" drain", 2, b"bad input 1: form\n"),
    ("sim", b"Round", 2, b"bad input 1: form\n"),
    ("sim", b"a", 2, b"bad input 1: form\n"),
    ("sim", b"a ", 2, b"bad input 1: form\n"),
    ("sim", b"b \r\n", 2, b"bad input 1: form\n"),
    ("sim", b"c 00", 2, b"bad input 1: form\n"),
    ("sim", b"ab", 2, b"bad input 1: form\n"),
    ("sim", b"ab ", 2, b"bad input 1: form\n"),
    ("sim", b"ab 0", 2, b"bad input 1: form\n"),
    ("sim", b"ab 01", 2, b"bad input 1: form\n"),
    ("sim", b"ab +1", 2, b"bad input 1: form\n"),
    ("sim", b"ab  1", 2, b"bad input 1: form\n"),
    ("sim", b"ba 1000000001", 2, b"bad input 1: form\n"),
    ("sim", b"ba 18446744073709551617", 2, b"bad input 1: form\n"),
    (
        "sim",
        b"drain\nba 1000000000\r\n\nab 1\nab 1 \nx",
        2,
        b"bad input 5: form\n",
    ),
    ("sim", b"a x", 2, b"bad input 1: odd digits\n"),
    ("sim", b"a  00", 2, b"bad input 1: odd digits\n"),
    ("sim", b"b 00 00", 2, b"bad input 1: odd digits\n"),
    ("sim", b"a 0g", 2, b"bad input 1: bad digit\n"),
    ("sim", b"b  000", 2, b"bad input 1: bad digit\n"),
    ("sim", b"a 00 0\na x", 2, b"bad input 1: bad digit\n"),
    (
        "sim",
        b"a 00\n\nround\nb 000\nb 0g",
        2,
        b"bad input 4: odd digits\n",
    ),
];

#[test]
fn scripts_have_outcomes(rt: HostRuntime) -> Result<(), Fail> {
    answer_each(&rt, rt.alloc(), SCRIPTS)
}

/// Words; the input, which is a front, a piece so many times, and a tail; an exit code; and the first and the last bytes of
/// what is written.
type Long = (
    &'static str,
    (&'static str, &'static str, usize, &'static str),
    u8,
    (&'static str, &'static str),
);

/// 80 digits, of 40 bytes.
const DIGITS: &str =
    "00000000000000000000000000000000000000000000000000000000000000000000000000000000";

const LONG: &[Long] = &[
    // empty lines are no events
    (
        "sim",
        ("", "round\n\n", 100_000, ""),
        0,
        ("phase a greeting\n", "pool b 0\ndrained no\n"),
    ),
    (
        "sim",
        ("", "x\n", 100_001, ""),
        2,
        ("bad input 100001: too many\n", "too many\n"),
    ),
    // the longest transaction, and one byte more
    (
        "sim",
        ("a ", DIGITS, 100_000, "\ndrain"),
        0,
        (
            "phase a idle\nphase b idle\npool a 1\n",
            "\npool b 0\ndrained yes\n",
        ),
    ),
    (
        "sim",
        ("drain\nb ", DIGITS, 100_000, "00\n"),
        2,
        ("bad input 2: transaction too long\n", "too long\n"),
    ),
];

const LARGEST: &[Long] = &[(
    "gen 10000",
    ("", "", 0, ""),
    0,
    ("a round 1 extension 1024 ", "\ndrained yes\n"),
)];

/// Compares the answer of each case, and the first and the last bytes of its text.
fn find_each(rt: &impl Abort, alloc: Global, cases: &[Long]) -> Result<(), Fail> {
    for (words, (front, piece, times, tail), code, (start, end)) in cases {
        let mut bytes = front.as_bytes().to_vec(alloc)?;
        for _ in 0..*times {
            bytes.extend_from_slice(piece.as_bytes())?;
        }
        bytes.extend_from_slice(tail.as_bytes())?;
        let (ended, wrote) = outcome(alloc, words, bytes.as_slice(), WHOLE)?;
        assert_eq!(rt; ended, *code, "{words}");
        assert!(rt; wrote.starts_with(start.as_bytes()), "{words}");
        assert!(rt; wrote.ends_with(end.as_bytes()), "{words}");
    }
    Ok(())
}

#[test]
fn long_scripts_have_outcomes(rt: HostRuntime) -> Result<(), Fail> {
    find_each(&rt, rt.alloc(), LONG)
}

#[test]
fn the_largest_generated_script_has_an_outcome(rt: HostRuntime) -> Result<(), Fail> {
    find_each(&rt, rt.alloc(), LARGEST)
}

/// A script that fills one pool and one more, adds a transaction to the other side, and begins a round.
fn crowded_script(alloc: Global) -> Result<Vec<u8>, AllocError> {
    let mut script = b"drain\n".to_vec(alloc)?;
    for i in 0..50_001u32 {
        let line = format!(in alloc; "b {i:08}\n")?;
        script.extend_from_slice(line.as_bytes())?;
    }
    script.extend_from_slice(b"a 00\nround\ndrain\n")?;
    Ok(script)
}

#[test]
fn a_node_without_room_ends_its_run(rt: HostRuntime) -> Result<(), Fail> {
    let alloc = rt.alloc();
    let script = crowded_script(alloc)?;
    let (ended, wrote) = outcome(alloc, "sim", script.as_slice(), WHOLE)?;
    assert_eq!(rt; ended, 4);
    assert!(rt; wrote.ends_with(b"\nrefused b pool full\n"));
    Ok(())
}
