//! Wires: each call of the fake, and each of them failing; and two over a connection.

ghost use Rattle.std.specs.Prelude.{◌≡◌, true};

use crate::fakes::{TEN, only};
use erlay_base::{Failed, MemWire, TcpWire, Wire};
use std::alloc::Global;
use std::net::Net;
use std::process::Abort;

/// Connects, sends and receives. Answers the number of the first call that failed, and else 0.
fn first_fault<W: Wire>(wire: &mut W, received: &mut usize) -> u64 {
    let mut buf = [0u8; 4];
    let Ok(()) = wire.connect("a:1") else {
        return 1;
    };
    let Ok(_) = wire.send(b"abc") else { return 2 };
    let Ok(count) = wire.receive(&mut buf) else {
        return 3;
    };
    *received = count;
    0
}

/// Listens, accepts and receives. Answers the number of the first call that failed behind three others, and else 0.
fn later_fault<W: Wire>(wire: &mut W, received: &mut usize) -> u64 {
    let mut buf = [0u8; 4];
    let Ok(()) = wire.listen("b:2") else {
        return 4;
    };
    let Ok(()) = wire.accept() else {
        return 5;
    };
    let Ok(count) = wire.receive(&mut buf) else {
        return 6;
    };
    *received = count;
    0
}

/// Makes six calls: over two links, of which the first is used both ways and the second is at its end. Answers the number
/// of the first one that failed, and else 0; and how many bytes each link gave, where it came so far.
fn calls(wire: &mut MemWire) -> (u64, usize, usize) {
    let (mut first, mut second) = (0, 9);
    let fault = match first_fault(wire, &mut first) {
        0 => later_fault(wire, &mut second),
        fault => fault,
    };
    (fault, first, second)
}

/// A wire over which the ten bytes come: a call moves at most `cut` bytes, and that of the number `failing` fails.
fn wire_of(rt: &impl Abort, alloc: Global, cut: usize, failing: u64) -> MemWire {
    let bytes = TEN.to_vec(alloc).expect(rt, "memory");
    let failing = only(alloc, failing).expect(rt, "memory");
    MemWire::new(alloc, bytes, cut.max(1), failing)
}

/// What the six calls come to, and how many bytes the current link has sent by then.
fn told(rt: &impl Abort, alloc: Global, cut: usize, failing: u64) -> ((u64, usize, usize), usize) {
    let mut wire = wire_of(rt, alloc, cut, failing);
    let told = calls(&mut wire);
    assert!(rt; b"abc".starts_with(wire.sent()));
    (told, wire.sent().len())
}

#[test]
fn wire_calls_each_pass_and_fail(rt: HostRuntime) {
    for (cut, moved) in [(1, 1), (1000, 3)] {
        // the call that fails, what comes of the six, and how many bytes the current link has sent by then
        for (failing, fault, first, second, sent) in [
            (1, 1, 0, 9, 0),
            (2, 2, 0, 9, 0),
            (3, 3, 0, 9, moved),
            (4, 4, cut.min(4), 9, moved),
            (5, 5, cut.min(4), 9, moved),
            (6, 6, cut.min(4), 9, 0),
            (7, 0, cut.min(4), 0, 0),
        ] {
            let told = told(&rt, rt.alloc(), cut, failing);
            assert_eq!(rt; told, ((fault, first, second), sent), "{cut} {failing}");
        }
    }
}

/// Links two wires, the first of which listens. The address is free before, and then in use.
fn meet<R: Net>(rt: &impl Abort, first: &mut TcpWire<R>, second: &mut TcpWire<R>, address: &str)
    ensures first { first.new.is_linked ≡ true }
    ensures second { second.new.is_linked ≡ true }
{
    assert_eq!(rt; second.connect("no address"), Err(Failed));
    assert_eq!(rt; first.listen(address), Ok(()));
    assert_eq!(rt; second.listen(address), Err(Failed));
    let Ok(()) = second.connect(address) else {
        rt.abort()
    };
    let Ok(()) = first.accept() else { rt.abort() };
}

/// That what the second wire sends comes over the first.
fn assert_told<R: Net>(rt: &impl Abort, first: &mut TcpWire<R>, second: &mut TcpWire<R>)
    requires first { first.old.is_linked ≡ true }
    requires second { second.old.is_linked ≡ true }
    ensures { first.new.is_linked ≡ true }
{
    let mut buf = [0u8; 8];
    assert_eq!(rt; second.send(b"hello"), Ok(5));
    assert_eq!(rt; first.receive(&mut buf), Ok(5));
    assert_eq!(rt; first.receive(&mut []), Ok(0));
    assert!(rt; buf.starts_with(b"hello"));
}

#[test]
fn two_wires_meet_over_a_connection(rt: HostRuntime) {
    let mut buf = [0u8; 8];
    let mut first = TcpWire::new(&rt);
    let mut second = TcpWire::new(&rt);
    meet(&rt, &mut first, &mut second, "127.0.0.1:18613");
    assert_told(&rt, &mut first, &mut second);
    drop(second);
    assert_eq!(rt; first.receive(&mut buf), Ok(0));
}
