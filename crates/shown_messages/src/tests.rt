//! Messages whose lines are known.

use super::*;
use base_types::{Bytes, OutOfMemory};
use recon_messages::decode_ref;
use std::alloc::Global;
use wire_rules::FrameRef;

/// The line of what a frame of this command and this payload says.
fn line_of(alloc: Global, word: &[u8], payload: &[u8]) -> Result<Bytes, OutOfMemory> {
    let mut command = [0; 12];
    for (to, from) in command.iter_mut().zip(word) {
        *to = *from;
    }
    let Ok(message) = decode_ref(alloc, &FrameRef { command, payload }) else {
        return Err(OutOfMemory);
    };
    show(alloc, &message)
}

#[test]
fn messages_have_known_lines(rt: HostRuntime) {
    let alloc = rt.alloc();
    for (word, payload, line) in [
        (
            b"version".as_slice(),
            b"\x80\x11\x01\0\0\0\0\0\0\0\0\0\x01\0\0\0\0\0\0\0aaaaaaaaaaaaaaaaaaaaaaaaaabbbbbbbbbbbbbbbbbbbbbbbbbb\x05\0\0\0\0\0\0\0\x09/erlay:1/\xfe\xff\xff\xff\x01".as_slice(),
            b"version 70016 0 1 6161616161616161616161616161616161616161616161616161 6262626262626262626262626262626262626262626262626262 5 2f65726c61793a312f -2 1".as_slice(),
        ),
        (
            b"version",
            b"\0\0\0\x80\xff\xff\xff\xff\xff\xff\xff\xff\xff\xff\xff\xff\xff\xff\xff\xffaaaaaaaaaaaaaaaaaaaaaaaaaabbbbbbbbbbbbbbbbbbbbbbbbbb\x05\0\0\0\0\0\0\0\0\0\0\0\0",
            b"version -2147483648 18446744073709551615 -1 6161616161616161616161616161616161616161616161616161 6262626262626262626262626262626262626262626262626262 5 - 0 none",
        ),
        (b"verack", b"", b"verack"),
        (b"wtxidrelay", b"", b"wtxidrelay"),
        (
            b"sendtxrcncl",
            b"\x01\0\0\0\x01\0\0\0\0\0\0\0",
            b"sendtxrcncl 1 0000000000000001",
        ),
        (b"reqrecon", b"\x64\0\0\x20", b"reqrecon 100 8192"),
        (b"sketch", b"\x04\x03\0\0\0", b"sketch 03000000"),
        (b"sketch", b"\0", b"sketch -"),
        (b"reqsketchext", b"", b"reqsketchext"),
        (
            b"reconcildiff",
            b"\x01\x02\x01\0\0\0\x02\0\0\0",
            b"reconcildiff 1 00000001 00000002",
        ),
        (b"reconcildiff", b"\0\0", b"reconcildiff 0"),
        (
            b"inv",
            b"\x01\x05\0\0\0abcdefghijklmnopqrstuvwxyz012345",
            b"inv 5:6162636465666768696a6b6c6d6e6f707172737475767778797a303132333435",
        ),
        (
            b"getdata",
            b"\x02\x05\0\0\0abcdefghijklmnopqrstuvwxyz012345\x01\0\0\xffabcdefghijklmnopqrstuvwxyz543210",
            b"getdata 5:6162636465666768696a6b6c6d6e6f707172737475767778797a303132333435 4278190081:6162636465666768696a6b6c6d6e6f707172737475767778797a353433323130",
        ),
        (b"notfound", b"\0", b"notfound"),
        (b"tx", b"hello", b"tx 68656c6c6f"),
        (b"ping", b"\x01\0\0\0\0\0\0\0", b"ping 1"),
        (
            b"pong",
            b"\xff\xff\xff\xff\xff\xff\xff\xff",
            b"pong 18446744073709551615",
        ),
        (
            b"feefilter",
            b"\x01\x02",
            b"other 66656566696c746572000000 0102",
        ),
        (b"a", b"", b"other 610000000000000000000000 -"),
    ] {
        let shown = line_of(alloc, word, payload).expect(&rt, "memory");
        assert_eq!(rt; shown.as_slice(), line);
    }
}
