//! The program from bytes to bytes, over fakes of its input and its output.

use erlay_base::{MemShelf, MemSink, MemSource, MemWire};
use erlay_cli::{Chance, exit_code};
use std::alloc::{AllocError, Global};
use std::io::{self, Error, ErrorKind};
use std::process::Abort;
use std::test::Fail;

/// How many bytes a call moves at most, and the number of the read and of the write that fails, 0 for none.
#[derive(Clone, Copy)]
pub(crate) struct Streams {
    pub(crate) cut: usize,
    pub(crate) failing_read: u64,
    pub(crate) failing_write: u64,
}

/// The numbers of the calls that fail.
fn calls_of(alloc: Global, failing: u64) -> Result<Vec<u64>, AllocError> {
    let mut calls = Vec::new(alloc);
    if failing > 0 {
        calls.push(failing)?;
    }
    Ok(calls)
}

/// The arguments: the program's name, and the words, parted by single blanks.
fn arguments_of(alloc: Global, words: &str) -> Result<Vec<String>, AllocError> {
    let mut arguments = vec![in alloc; "erlay".to_string(alloc)?]?;
    if !words.is_empty() {
        for word in words.split(' ') {
            arguments.push(word.to_string(alloc)?)?;
        }
    }
    Ok(arguments)
}

/// The exit code of the program, over a wire with no peer and a shelf with no contents.
fn code_of(
    alloc: Global,
    arguments: io::Result<Vec<String>>,
    input: &mut MemSource,
    output: &mut MemSink,
) -> u8 {
    let chance = Chance {
        salt: 1,
        nonce: 0,
        time: 0,
    };
    let mut wire = MemWire::new(alloc, Vec::new(alloc), 1, Vec::new(alloc));
    let mut shelf = MemShelf::new(alloc, Vec::new(alloc), Vec::new(alloc));
    exit_code(
        alloc, arguments, chance, input, output, &mut wire, &mut shelf,
    )
}

/// The exit code of the program for these words and this input, and the bytes that it wrote.
pub(crate) fn outcome(
    alloc: Global,
    words: &str,
    bytes: &[u8],
    streams: Streams,
) -> Result<(u8, Vec<u8>), Fail> {
    let cut = streams.cut.max(1);
    let failing_reads = calls_of(alloc, streams.failing_read)?;
    let failing_writes = calls_of(alloc, streams.failing_write)?;
    let mut input = MemSource::new(bytes.to_vec(alloc)?, cut, failing_reads);
    let mut output = MemSink::new(alloc, cut, failing_writes);
    let arguments = Ok(arguments_of(alloc, words)?);
    let code = code_of(alloc, arguments, &mut input, &mut output);
    Ok((code, output.written().to_vec(alloc)?))
}

/// Words and an input, and what they lead to: an exit code and the bytes that are written.
pub(crate) type Case = (&'static str, &'static [u8], u8, &'static [u8]);

const SETS: &[Case] = &[
    ("make 3", b"00000001\n", 0, b"010000000100000001000000\n"),
    (
        "make 4",
        b"00000001\n00000002\n00000003\n",
        0,
        b"0000000006000000120000007e000000\n",
    ),
    ("make 2", b"80000000\n", 0, b"00000080726d0420\n"),
    ("make 2", b"", 0, b"0000000000000000\n"),
    // CR and LF, empty lines, upper case, and no LF at the end
    ("make 1", b"\r\n\n0000000A\r\n\n0000000b", 0, b"01000000\n"),
    (
        "merge",
        b"0300000009000000\n0200000008000000\n",
        0,
        b"0100000001000000\n",
    ),
    (
        "merge",
        b"\n0300000009000000\r\n\r\n0300000009000000",
        0,
        b"0000000000000000\n",
    ),
    ("merge", b"0A00000F\n0000000f", 0, b"0a000000\n"),
    ("decode", b"0300000009000000\n", 0, b"00000001\n00000002\n"),
    (
        "decode",
        b"0000000006000000120000007e000000",
        0,
        b"00000001\n00000002\n00000003\n",
    ),
    ("decode", b"00000080726d0420\n", 0, b"80000000\n"),
    // one sum: of 3, and of 1 and 2 as well
    ("decode", b"03000000\n", 0, b"00000003\n"),
    // CR and LF, empty lines, upper case
    ("decode", b"\r\n\n0A000000\r\n\n", 0, b"0000000a\n"),
    // the first two sums of 1, 2 and 3
    ("decode", b"0000000006000000\n", 3, b"no set\n"),
    // x ^ 3 + x + 1 has no root
    (
        "decode",
        b"00000000010000000100000001000000",
        3,
        b"no set\n",
    ),
    // one fault of elements
    ("make 3", b"00000000", 2, b"bad input 1: zero\n"),
    (
        "make 3",
        b"00000005\n00000005\n",
        2,
        b"bad input 2: repeated\n",
    ),
    (
        "make 3",
        b"0000000a\n0000000A\n",
        2,
        b"bad input 2: repeated\n",
    ),
    ("make 3", b"123", 2, b"bad input 1: digit count\n"),
    ("make 3", b"00000001\r", 2, b"bad input 1: digit count\n"),
    ("make 3", b"0000000g\n", 2, b"bad input 1: bad digit\n"),
    ("make 3", b"0000001\r\r\n", 2, b"bad input 1: bad digit\n"),
    (
        "make 3",
        b"\xc3\xa9\xc3\xa9\xc3\xa9\xc3\xa9\n",
        2,
        b"bad input 1: bad digit\n",
    ),
    // several of them, in each order
    (
        "make 3",
        b"\n00000005\r\n\n00000005\n00000000\n123\n",
        2,
        b"bad input 4: repeated\n",
    ),
    (
        "make 3",
        b"00000005\n00000000\n00000005\n",
        2,
        b"bad input 2: zero\n",
    ),
    (
        "make 3",
        b"00000005\n123\n00000005\n0000000g",
        2,
        b"bad input 2: digit count\n",
    ),
    (
        "make 3",
        b"000000\xff0\n00000000\n",
        2,
        b"bad input 1: bad digit\n",
    ),
    // the first fault of two sketches
    ("merge", b"", 2, b"bad input 0: line count\n"),
    ("merge", b"\r", 2, b"bad input 1: line count\n"),
    ("merge", b"x\n\n", 2, b"bad input 1: line count\n"),
    ("merge", b"x\ny\nz", 2, b"bad input 3: line count\n"),
    ("merge", b"\n0300000\n03\n", 2, b"bad input 2: odd digits\n"),
    ("merge", b"03000g00\n030\n", 2, b"bad input 1: bad digit\n"),
    (
        "merge",
        b"03000000\n030000000900\n",
        2,
        b"bad input 2: ragged length 6\n",
    ),
    (
        "merge",
        b"010000000100000001000000\n\n0300000009000000\n",
        2,
        b"bad input 3: lengths differ\n",
    ),
    // the first fault of one sketch
    ("decode", b"", 2, b"bad input 0: line count\n"),
    (
        "decode",
        b"03000000\n\n0300000009000000\n",
        2,
        b"bad input 2: line count\n",
    ),
    ("decode", b"x\ny\nz", 2, b"bad input 3: line count\n"),
    ("decode", b"0300000\n", 2, b"bad input 1: odd digits\n"),
    ("decode", b"\n030000x\r\n", 2, b"bad input 2: odd digits\n"),
    ("decode", b"\r\n0300x0\n", 2, b"bad input 2: bad digit\n"),
    (
        "decode",
        b"030000000900",
        2,
        b"bad input 1: ragged length 6\n",
    ),
    // ids under the key of two salts, in either order of them, and digits of either case
    (
        "ids 0000000000000001 0000000000000002",
        b"9595c9df90075148eb06860365df33584b75bff782a510c6cd4883a419833d50\n",
        0,
        b"9595c9df90075148eb06860365df33584b75bff782a510c6cd4883a419833d50 d977c38b\n",
    ),
    (
        "ids 0000000000000002 0000000000000001",
        b"9595c9df90075148eb06860365df33584b75bff782a510c6cd4883a419833d50",
        0,
        b"9595c9df90075148eb06860365df33584b75bff782a510c6cd4883a419833d50 d977c38b\n",
    ),
    (
        "ids abcdef0123456789 ABCDEFabcdef0000",
        b"\r\n9595C9DF90075148EB06860365DF33584B75BFF782A510C6CD4883A419833D50\r\n\n0000000000000000000000000000000000000000000000000000000000000000",
        0,
        b"9595c9df90075148eb06860365df33584b75bff782a510c6cd4883a419833d50 a3a7fde0\n0000000000000000000000000000000000000000000000000000000000000000 dc590f1a\n",
    ),
    ("ids 0000000000000001 0000000000000002", b"", 0, b""),
    // the first fault of ids
    (
        "ids 0000000000000001 0000000000000002",
        b"9595c9df90075148eb06860365df33584b75bff782a510c6cd4883a419833d50\n\n9595c9df90075148eb06860365df33584b75bff782a510c6cd4883a419833d5\ngggggggggggggggggggggggggggggggggggggggggggggggggggggggggggggggg",
        2,
        b"bad input 3: digit count\n",
    ),
    (
        "ids 0000000000000001 0000000000000002",
        b"9595c9df90075148eb06860365df33584b75bff782a510c6cd4883a419833d50\n9595c9df90075148eb06860365df33584b75bff782a510c6cd4883a419833d5g\n1",
        2,
        b"bad input 2: bad digit\n",
    ),
    (
        "ids 0000000000000001 0000000000000002",
        b"ggggggggggggggggggggggggggggggggggggggggggggggggggggggggggggggggg",
        2,
        b"bad input 1: digit count\n",
    ),
];

const STREAMS: &[Case] = &[
    // frames as lines
    (
        "show",
        b"\xf9\xbe\xb4\xd9tx\x00\x00\x00\x00\x00\x00\x00\x00\x00\x00\x05\x00\x00\x00\x95\x95\xc9\xdfhello",
        0,
        b"tx 68656c6c6f\n",
    ),
    (
        "show",
        b"\xf9\xbe\xb4\xd9verack\x00\x00\x00\x00\x00\x00\x00\x00\x00\x00]\xf6\xe0\xe2\xf9\xbe\xb4\xd9tx\x00\x00\x00\x00\x00\x00\x00\x00\x00\x00\x05\x00\x00\x00\x95\x95\xc9\xdfhello\xf9\xbe\xb4\xd9verack\x00\x00\x00\x00\x00\x00\x00\x00\x00\x00]\xf6\xe0\xe2",
        0,
        b"verack\ntx 68656c6c6f\nverack\n",
    ),
    (
        "show",
        b"\xf9\xbe\xb4\xd9feefilter\x00\x00\x00\x01\x00\x00\x00\xb6\xd5\x8d\xfa\x07",
        0,
        b"other 66656566696c746572000000 07\n",
    ),
    (
        "show",
        b"\xf9\xbe\xb4\xd9reconcildiff\n\x00\x00\x00df\x90H\x01\x02\x01\x00\x00\x00\xcd\xab4\x12",
        0,
        b"reconcildiff 1 00000001 1234abcd\n",
    ),
    ("show", b"", 0, b""),
    // the first fault of frames: nothing before it is shown
    (
        "show",
        b"\xf9\xbe\xb4\xd9verack\x00\x00\x00\x00\x00\x00\x00\x00\x00\x00]\xf6\xe0\xe3",
        2,
        b"bad input 0: bad checksum at 0: 5df6e0e3 not 5df6e0e2\n",
    ),
    (
        "show",
        b"\xf8\xbe\xb4\xd9verack\x00\x00\x00\x00\x00\x00\x00\x00\x00\x00]\xf6\xe0\xe2",
        2,
        b"bad input 0: bad magic at 0\n",
    ),
    (
        "show",
        b"\xf9\xbe\xb4\xd9verack\x00\x00\x00\x00\x00\x00\x00\x00\x00\x00]\xf6\xe0\xe2\xf9\xbe\xb4\xd9tx\x00\x00\x00\x00\x00\x00\x00\x00\x00\x00\x05\x00\x00\x00\x95\x95\xc9\xdfhell",
        2,
        b"bad input 24: cut short\n",
    ),
    (
        "show",
        b"\xf9\xbe\xb4\xd9tx\x00\x00\x00\x00\x00\x00\x00\x00\x00\x00\x05\x00\x00\x00\x95\x95\xc9\xdfhello\xf9",
        2,
        b"bad input 29: cut short\n",
    ),
    (
        "show",
        b"\xf9\xbe\xb4\xd9verack\x00\x00\x00\x00\x00\x00\x00\x00\x00\x00]\xf6\xe0\xe2\xf9\xbe\xb4\xd9tx\x00x\x00\x00\x00\x00\x00\x00\x00\x00\x05\x00\x00\x00\x95\x95\xc9\xdfhello",
        2,
        b"bad input 24: bad command at 24\n",
    ),
    (
        "show",
        b"\xf9\xbe\xb4\xd9tx\x00\x00\x00\x00\x00\x00\x00\x00\x00\x00\x01\x09=\x00]\xf6\xe0\xe2",
        2,
        b"bad input 0: too long at 0: 4000001\n",
    ),
    (
        "show",
        b"\xf9\xbe\xb4\xd9sketch\x00\x00\x00\x00\x00\x00\x04\x00\x00\x00\x7f\xe1&\x14\xfd\x01\x00\x07",
        2,
        b"bad input 0: payload of sketch at 0: not minimal\n",
    ),
    (
        "show",
        b"\xf9\xbe\xb4\xd9sketch\x00\x00\x00\x00\x00\x00\x03\x00\x00\x00\xbd\xf6J\xdf\xfdQ\xc3",
        2,
        b"bad input 0: payload of sketch at 0: too many\n",
    ),
    (
        "show",
        b"\xf9\xbe\xb4\xd9verack\x00\x00\x00\x00\x00\x00\x00\x00\x00\x00]\xf6\xe0\xe2\xf9\xbe\xb4\xd9reconcildiff\x02\x00\x00\x00\x0f\x80H\x09\x02\x00",
        2,
        b"bad input 24: payload of reconcildiff at 0: bad flag\n",
    ),
    (
        "show",
        b"\xf9\xbe\xb4\xd9ping\x00\x00\x00\x00\x00\x00\x00\x00\x01\x00\x00\x00\x9c\x12\xcf\xdc\x01",
        2,
        b"bad input 0: payload of ping at 1: short\n",
    ),
    (
        "show",
        b"\xf9\xbe\xb4\xd9verack\x00\x00\x00\x00\x00\x00\x01\x00\x00\x00\x14\x06\xe0X\x00\xf8\xf8\xf8\xf8\xf8\xf8\xf8\xf8\xf8\xf8\xf8\xf8\xf8\xf8\xf8\xf8\xf8\xf8\xf8\xf8\xf8\xf8\xf8\xf8",
        2,
        b"bad input 0: payload of verack at 0: trailing\n",
    ),
    // every kind of message, as frames and as lines
    (
        "show",
        b"\xf9\xbe\xb4\xd9version\x00\x00\x00\x00\x00_\x00\x00\x00\x83\xf4e\x1c\x80\x11\x01\x00\x00\x00\x00\x00\x00\x00\x00\x00\x01\x00\x00\x00\x00\x00\x00\x00aaaaaaaaaaaaaaaaaaaaaaaaaabbbbbbbbbbbbbbbbbbbbbbbbbb\x05\x00\x00\x00\x00\x00\x00\x00\x09/erlay:1/\xfe\xff\xff\xff\x01\xf9\xbe\xb4\xd9verack\x00\x00\x00\x00\x00\x00\x00\x00\x00\x00]\xf6\xe0\xe2\xf9\xbe\xb4\xd9wtxidrelay\x00\x00\x00\x00\x00\x00]\xf6\xe0\xe2\xf9\xbe\xb4\xd9sendtxrcncl\x00\x0c\x00\x00\x00`\x8cR\x90\x01\x00\x00\x00\xef\xcd\xab\x89gE#\x01\xf9\xbe\xb4\xd9reqrecon\x00\x00\x00\x00\x04\x00\x00\x00\xdf\xd1J\xb5d\x00\x00 \xf9\xbe\xb4\xd9sketch\x00\x00\x00\x00\x00\x00\x05\x00\x00\x00\x8e\xad\xc1\xcc\x04\x03\x00\x00\x00\xf9\xbe\xb4\xd9reqsketchext\x00\x00\x00\x00]\xf6\xe0\xe2\xf9\xbe\xb4\xd9reconcildiff\n\x00\x00\x00df\x90H\x01\x02\x01\x00\x00\x00\xcd\xab4\x12\xf9\xbe\xb4\xd9inv\x00\x00\x00\x00\x00\x00\x00\x00\x00%\x00\x00\x00w\xbd]\xa4\x01\x05\x00\x00\x00abcdefghijklmnopqrstuvwxyz012345\xf9\xbe\xb4\xd9getdata\x00\x00\x00\x00\x00I\x00\x00\x00\xde\x92\x11\xad\x02\x05\x00\x00\x00abcdefghijklmnopqrstuvwxyz012345\x01\x00\x00\x00543210zyxwvutsrqponmlkjihgfedcba\xf9\xbe\xb4\xd9notfound\x00\x00\x00\x00%\x00\x00\x00\xd5g\x80\xd3\x01\x01\x00\x00\xff543210zyxwvutsrqponmlkjihgfedcba\xf9\xbe\xb4\xd9tx\x00\x00\x00\x00\x00\x00\x00\x00\x00\x00\x05\x00\x00\x00\x95\x95\xc9\xdfhello\xf9\xbe\xb4\xd9ping\x00\x00\x00\x00\x00\x00\x00\x00\x08\x00\x00\x00\x08S?k\x01\x00\x00\x00\x00\x00\x00\x00\xf9\xbe\xb4\xd9pong\x00\x00\x00\x00\x00\x00\x00\x00\x08\x00\x00\x00u*\xda\xd0\xff\xff\xff\xff\xff\xff\xff\xff\xf9\xbe\xb4\xd9feefilter\x00\x00\x00\x02\x00\x00\x00v\xa5j\xce\x01\x02",
        0,
        b"version 70016 0 1 6161616161616161616161616161616161616161616161616161 6262626262626262626262626262626262626262626262626262 5 2f65726c61793a312f -2 1\nverack\nwtxidrelay\nsendtxrcncl 1 0123456789abcdef\nreqrecon 100 8192\nsketch 03000000\nreqsketchext\nreconcildiff 1 00000001 1234abcd\ninv 5:6162636465666768696a6b6c6d6e6f707172737475767778797a303132333435\ngetdata 5:6162636465666768696a6b6c6d6e6f707172737475767778797a303132333435 1:3534333231307a797877767574737271706f6e6d6c6b6a696867666564636261\nnotfound 4278190081:3534333231307a797877767574737271706f6e6d6c6b6a696867666564636261\ntx 68656c6c6f\nping 1\npong 18446744073709551615\nother 66656566696c746572000000 0102\n",
    ),
];

const LINES: &[Case] = &[
    (
        "pack",
        b"version 70016 0 1 6161616161616161616161616161616161616161616161616161 6262626262626262626262626262626262626262626262626262 5 2f65726c61793a312f -2 1\nverack\nwtxidrelay\nsendtxrcncl 1 0123456789abcdef\nreqrecon 100 8192\nsketch 03000000\nreqsketchext\nreconcildiff 1 00000001 1234abcd\ninv 5:6162636465666768696a6b6c6d6e6f707172737475767778797a303132333435\ngetdata 5:6162636465666768696a6b6c6d6e6f707172737475767778797a303132333435 1:3534333231307a797877767574737271706f6e6d6c6b6a696867666564636261\nnotfound 4278190081:3534333231307a797877767574737271706f6e6d6c6b6a696867666564636261\ntx 68656c6c6f\nping 1\npong 18446744073709551615\nother 66656566696c746572000000 0102\n",
        0,
        b"\xf9\xbe\xb4\xd9version\x00\x00\x00\x00\x00_\x00\x00\x00\x83\xf4e\x1c\x80\x11\x01\x00\x00\x00\x00\x00\x00\x00\x00\x00\x01\x00\x00\x00\x00\x00\x00\x00aaaaaaaaaaaaaaaaaaaaaaaaaabbbbbbbbbbbbbbbbbbbbbbbbbb\x05\x00\x00\x00\x00\x00\x00\x00\x09/erlay:1/\xfe\xff\xff\xff\x01\xf9\xbe\xb4\xd9verack\x00\x00\x00\x00\x00\x00\x00\x00\x00\x00]\xf6\xe0\xe2\xf9\xbe\xb4\xd9wtxidrelay\x00\x00\x00\x00\x00\x00]\xf6\xe0\xe2\xf9\xbe\xb4\xd9sendtxrcncl\x00\x0c\x00\x00\x00`\x8cR\x90\x01\x00\x00\x00\xef\xcd\xab\x89gE#\x01\xf9\xbe\xb4\xd9reqrecon\x00\x00\x00\x00\x04\x00\x00\x00\xdf\xd1J\xb5d\x00\x00 \xf9\xbe\xb4\xd9sketch\x00\x00\x00\x00\x00\x00\x05\x00\x00\x00\x8e\xad\xc1\xcc\x04\x03\x00\x00\x00\xf9\xbe\xb4\xd9reqsketchext\x00\x00\x00\x00]\xf6\xe0\xe2\xf9\xbe\xb4\xd9reconcildiff\n\x00\x00\x00df\x90H\x01\x02\x01\x00\x00\x00\xcd\xab4\x12\xf9\xbe\xb4\xd9inv\x00\x00\x00\x00\x00\x00\x00\x00\x00%\x00\x00\x00w\xbd]\xa4\x01\x05\x00\x00\x00abcdefghijklmnopqrstuvwxyz012345\xf9\xbe\xb4\xd9getdata\x00\x00\x00\x00\x00I\x00\x00\x00\xde\x92\x11\xad\x02\x05\x00\x00\x00abcdefghijklmnopqrstuvwxyz012345\x01\x00\x00\x00543210zyxwvutsrqponmlkjihgfedcba\xf9\xbe\xb4\xd9notfound\x00\x00\x00\x00%\x00\x00\x00\xd5g\x80\xd3\x01\x01\x00\x00\xff543210zyxwvutsrqponmlkjihgfedcba\xf9\xbe\xb4\xd9tx\x00\x00\x00\x00\x00\x00\x00\x00\x00\x00\x05\x00\x00\x00\x95\x95\xc9\xdfhello\xf9\xbe\xb4\xd9ping\x00\x00\x00\x00\x00\x00\x00\x00\x08\x00\x00\x00\x08S?k\x01\x00\x00\x00\x00\x00\x00\x00\xf9\xbe\xb4\xd9pong\x00\x00\x00\x00\x00\x00\x00\x00\x08\x00\x00\x00u*\xda\xd0\xff\xff\xff\xff\xff\xff\xff\xff\xf9\xbe\xb4\xd9feefilter\x00\x00\x00\x02\x00\x00\x00v\xa5j\xce\x01\x02",
    ),
    // CR and LF, empty lines, no LF at the end
    (
        "pack",
        b"\x0d\n\nverack\x0d\n\ntx 68656c6c6f",
        0,
        b"\xf9\xbe\xb4\xd9verack\x00\x00\x00\x00\x00\x00\x00\x00\x00\x00]\xf6\xe0\xe2\xf9\xbe\xb4\xd9tx\x00\x00\x00\x00\x00\x00\x00\x00\x00\x00\x05\x00\x00\x00\x95\x95\xc9\xdfhello",
    ),
    (
        "pack",
        b"verack\n",
        0,
        b"\xf9\xbe\xb4\xd9verack\x00\x00\x00\x00\x00\x00\x00\x00\x00\x00]\xf6\xe0\xe2",
    ),
    (
        "pack",
        b"other 610000000000000000000000 -",
        0,
        b"\xf9\xbe\xb4\xd9a\x00\x00\x00\x00\x00\x00\x00\x00\x00\x00\x00\x00\x00\x00\x00]\xf6\xe0\xe2",
    ),
    ("pack", b"", 0, b""),
    // the first line that is no message: nothing of the lines before it is written
    ("pack", b"verack\n\nverack \nx", 2, b"bad input 3: form\n"),
    ("pack", b" verack\n", 2, b"bad input 1: form\n"),
    ("pack", b"verack \n", 2, b"bad input 1: form\n"),
    ("pack", b"verack x", 2, b"bad input 1: form\n"),
    (
        "pack",
        b"inv  5:6162636465666768696a6b6c6d6e6f707172737475767778797a303132333435",
        2,
        b"bad input 1: form\n",
    ),
    ("pack", b"verack\x0d\x0d\n", 2, b"bad input 1: form\n"),
    ("pack", b"Verack", 2, b"bad input 1: form\n"),
    ("pack", b"tx 68656C6C6F", 2, b"bad input 1: form\n"),
    ("pack", b"tx -", 2, b"bad input 1: form\n"),
    ("pack", b"tx ", 2, b"bad input 1: form\n"),
    ("pack", b"tx", 2, b"bad input 1: form\n"),
    ("pack", b"tx 686", 2, b"bad input 1: form\n"),
    ("pack", b"tx 6g", 2, b"bad input 1: form\n"),
    ("pack", b"ping 01", 2, b"bad input 1: form\n"),
    ("pack", b"ping +1", 2, b"bad input 1: form\n"),
    ("pack", b"ping -1", 2, b"bad input 1: form\n"),
    (
        "pack",
        b"ping 18446744073709551616",
        2,
        b"bad input 1: form\n",
    ),
    ("pack", b"ping", 2, b"bad input 1: form\n"),
    ("pack", b"reqrecon 65536 0", 2, b"bad input 1: form\n"),
    ("pack", b"reqrecon 0 65536", 2, b"bad input 1: form\n"),
    ("pack", b"reqrecon 1", 2, b"bad input 1: form\n"),
    ("pack", b"reqrecon 1 2 3", 2, b"bad input 1: form\n"),
    (
        "pack",
        b"sendtxrcncl 4294967296 0000000000000001",
        2,
        b"bad input 1: form\n",
    ),
    (
        "pack",
        b"sendtxrcncl 1 000000000000001",
        2,
        b"bad input 1: form\n",
    ),
    (
        "pack",
        b"sendtxrcncl 1 00000000000000011",
        2,
        b"bad input 1: form\n",
    ),
    ("pack", b"reconcildiff 2", 2, b"bad input 1: form\n"),
    ("pack", b"reconcildiff", 2, b"bad input 1: form\n"),
    ("pack", b"reconcildiff 1 0000001", 2, b"bad input 1: form\n"),
    (
        "pack",
        b"reconcildiff 1 0000000A",
        2,
        b"bad input 1: form\n",
    ),
    (
        "pack",
        b"inv 4294967296:6162636465666768696a6b6c6d6e6f707172737475767778797a303132333435",
        2,
        b"bad input 1: form\n",
    ),
    (
        "pack",
        b"inv 56162636465666768696a6b6c6d6e6f707172737475767778797a303132333435",
        2,
        b"bad input 1: form\n",
    ),
    (
        "pack",
        b"inv 5:6162636465666768696a6b6c6d6e6f707172737475767778797a3031323334",
        2,
        b"bad input 1: form\n",
    ),
    (
        "pack",
        b"inv 05:6162636465666768696a6b6c6d6e6f707172737475767778797a303132333435",
        2,
        b"bad input 1: form\n",
    ),
    (
        "pack",
        b"version 70016 0 1 6161616161616161616161616161616161616161616161616161 6262626262626262626262626262626262626262626262626262 5 - 0 none",
        0,
        b"\xf9\xbe\xb4\xd9version\x00\x00\x00\x00\x00U\x00\x00\x00\x07b\x00U\x80\x11\x01\x00\x00\x00\x00\x00\x00\x00\x00\x00\x01\x00\x00\x00\x00\x00\x00\x00aaaaaaaaaaaaaaaaaaaaaaaaaabbbbbbbbbbbbbbbbbbbbbbbbbb\x05\x00\x00\x00\x00\x00\x00\x00\x00\x00\x00\x00\x00",
    ),
    (
        "pack",
        b"version 2147483648 0 1 6161616161616161616161616161616161616161616161616161 6262626262626262626262626262626262626262626262626262 5 - 0 none",
        2,
        b"bad input 1: form\n",
    ),
    (
        "pack",
        b"version -2147483649 0 1 6161616161616161616161616161616161616161616161616161 6262626262626262626262626262626262626262626262626262 5 - 0 none",
        2,
        b"bad input 1: form\n",
    ),
    (
        "pack",
        b"version -0 0 1 6161616161616161616161616161616161616161616161616161 6262626262626262626262626262626262626262626262626262 5 - 0 none",
        2,
        b"bad input 1: form\n",
    ),
    (
        "pack",
        b"version 70016 0 1 6161616161616161616161616161616161616161616161616161 6262626262626262626262626262626262626262626262626262 5 - 0 256",
        2,
        b"bad input 1: form\n",
    ),
    (
        "pack",
        b"version 70016 0 1 6161616161616161616161616161616161616161616161616161 6262626262626262626262626262626262626262626262626262 5 - 0 00",
        2,
        b"bad input 1: form\n",
    ),
    (
        "pack",
        b"version 70016 0 9223372036854775808 6161616161616161616161616161616161616161616161616161 6262626262626262626262626262626262626262626262626262 5 - 0 none",
        2,
        b"bad input 1: form\n",
    ),
    (
        "pack",
        b"version 70016 18446744073709551616 1 6161616161616161616161616161616161616161616161616161 6262626262626262626262626262626262626262626262626262 5 - 0 none",
        2,
        b"bad input 1: form\n",
    ),
    (
        "pack",
        b"version 70016 0 1 6161616161616161616161616161616161616161616161616161 6262626262626262626262626262626262626262626262626262 5 -- 0 none",
        2,
        b"bad input 1: form\n",
    ),
    (
        "pack",
        b"version 70016 0 1 61616161616161616161616161616161616161616161616161 6262626262626262626262626262626262626262626262626262 5 - 0 none",
        2,
        b"bad input 1: form\n",
    ),
    (
        "pack",
        b"other 76657261636b000000000000 -",
        2,
        b"bad input 1: form\n",
    ),
    (
        "pack",
        b"other 610061000000000000000000 -",
        2,
        b"bad input 1: form\n",
    ),
    (
        "pack",
        b"other 000000000000000000000000 -",
        2,
        b"bad input 1: form\n",
    ),
    ("pack", b"other 61 -", 2, b"bad input 1: form\n"),
    (
        "pack",
        b"other 61000000000000000000000000 -",
        2,
        b"bad input 1: form\n",
    ),
    (
        "pack",
        b"other 610000000000000000000000",
        2,
        b"bad input 1: form\n",
    ),
];

/// Compares the answer of each case, where streams move whole and a byte at a time.
pub(crate) fn answer_each(rt: &impl Abort, alloc: Global, cases: &[Case]) -> Result<(), Fail> {
    for (words, input, code, text) in cases {
        for cut in [1, 65536] {
            let streams = Streams {
                cut,
                failing_read: 0,
                failing_write: 0,
            };
            let (ended, wrote) = outcome(alloc, words, input, streams)?;
            assert_eq!(rt; wrote.as_slice(), *text, "{words}: {ended}");
            assert_eq!(rt; ended, *code, "{words}");
        }
    }
    Ok(())
}

#[test]
fn sets_and_sketches_have_answers(rt: HostRuntime) -> Result<(), Fail> {
    answer_each(&rt, rt.alloc(), SETS)
}

#[test]
fn streams_have_lines(rt: HostRuntime) -> Result<(), Fail> {
    answer_each(&rt, rt.alloc(), STREAMS)
}

#[test]
fn lines_have_streams(rt: HostRuntime) -> Result<(), Fail> {
    answer_each(&rt, rt.alloc(), LINES)
}

/// Words, an input, the read and the write that fails, one byte a call, an exit code and a text.
type Failing = (&'static str, &'static str, u64, u64, u8, &'static str);

const FAILING: &[Failing] = &[
    ("make 1", "00000001\n", 1, 0, 5, "read fault\n"),
    ("make 1", "00000001\n", 2, 0, 5, "read fault\n"),
    // The tenth read is the one that finds the end, and no further one is made.
    ("make 1", "00000001\n", 10, 0, 5, "read fault\n"),
    ("make 1", "00000001\n", 11, 0, 0, "01000000\n"),
    ("make 1", "", 0, 1, 6, ""),
    ("make 1", "00000001\n", 0, 3, 6, "01"),
    ("make 1", "00000001\n", 0, 9, 6, "01000000"),
    // Nine writes write the text, and no further one is made.
    ("make 1", "00000001\n", 0, 10, 0, "01000000\n"),
    ("make 1", "1\n", 0, 1, 6, ""),
    ("make 1", "00000001\n", 1, 1, 6, ""),
    ("make 1", "00000001\n", 1, 5, 6, "read"),
    ("sim", "drain\n", 1, 0, 5, "read fault\n"),
    ("sim", "round", 0, 4, 6, "pha"),
    // A script from a number is made without a read.
    (
        "gen 1",
        "x",
        1,
        0,
        0,
        "a round 1 first 8 2 1\na round 2 first 8 0 0\nb round 1 first 8 1 0\nb round 2 first 8 0 0\nphase a idle\nphase b idle\npool a 2\npool b 2\ndrained yes\n",
    ),
    ("gen 1", "", 1, 1, 6, ""),
    // The empty set has no lines, and none is written.
    ("decode", "00000000", 0, 1, 0, ""),
];

#[test]
fn failed_calls_end_the_run(rt: HostRuntime) -> Result<(), Fail> {
    let alloc = rt.alloc();
    for (words, input, failing_read, failing_write, code, text) in FAILING {
        let streams = Streams {
            cut: 1,
            failing_read: *failing_read,
            failing_write: *failing_write,
        };
        let (ended, wrote) = outcome(alloc, words, input.as_bytes(), streams)?;
        assert_eq!(rt; wrote.as_slice(), text.as_bytes(), "{words}: {ended}");
        assert_eq!(rt; ended, *code, "{words}");
    }
    Ok(())
}

/// Words that ask for no command.
const FORMLESS: &[&str] = &[
    "",
    "make",
    "make ",
    "make 0",
    "make 00",
    "make 01",
    "make 4097",
    "make 18446744073709551615",
    "make 18446744073709551617",
    "make +1",
    "make -1",
    "make \t1",
    "make 1\t",
    "make 1a",
    "make x",
    "make 3 3",
    "merge 2",
    "merge merge",
    "decode 3",
    "decoded",
    "pack 1",
    "packed",
    "show 1",
    "Show",
    "ids",
    "ids 0000000000000001",
    "ids 000000000000001 0000000000000002",
    "ids 0000000000000001 00000000000000002",
    "ids 0000000000000001 000000000000002g",
    "ids 0000000000000001 +000000000000002",
    "ids 0000000000000001 0000000000000002 0000000000000003",
    "Make 3",
    "sync",
    "sync a b",
    "sync a b c d",
    "serve",
    "serve a b",
    "serve a b c d",
    "syncs a b c",
    "Serve a b c",
    "sim 1",
    "sim sim",
    "simulate",
    "gen",
    "gen ",
    "gen 0",
    "gen 01",
    "gen +1",
    "gen 10001",
    "gen 18446744073709551617",
    "gen x",
    "gen 1 1",
];

#[test]
fn words_without_form_read_nothing(rt: HostRuntime) -> Result<(), Fail> {
    let alloc = rt.alloc();
    let streams = Streams {
        cut: 1,
        failing_read: 1,
        failing_write: 0,
    };
    for words in FORMLESS {
        let (ended, wrote) = outcome(alloc, words, b"", streams)?;
        assert_eq!(rt; wrote.as_slice(), b"usage\n".as_slice(), "{words}");
        assert_eq!(rt; ended, 1, "{words}");
    }
    // Arguments that aren't text, and arguments for which memory ran out.
    for (kind, code, text) in [
        (ErrorKind::InvalidData, 1, "usage\n"),
        (ErrorKind::OutOfMemory, 11, "out of memory\n"),
    ] {
        let mut input = MemSource::new(Vec::new(alloc), 1, calls_of(alloc, 1)?);
        let mut output = MemSink::new(alloc, 1, Vec::new(alloc));
        let arguments = Err(Error::from(kind));
        let ended = code_of(alloc, arguments, &mut input, &mut output);
        assert_eq!(rt; ended, code);
        assert_eq!(rt; output.written(), text.as_bytes());
    }
    Ok(())
}

/// Words, an input of so many zeros and what stands behind them, an exit code, a text, and its length.
type Wide = (&'static str, usize, &'static [u8], u8, &'static str, usize);

const WIDE: &[Wide] = &[
    ("decode", 8_192, b"", 0, "", 0),
    ("make 4096", 0, b"", 0, "00000000", 32_769),
    // the widest sketch, and one sum more
    (
        "merge",
        32_768,
        b"\n00000000",
        2,
        "bad input 2: lengths differ\n",
        28,
    ),
    (
        "merge",
        32_776,
        b"\n00",
        2,
        "bad input 1: too wide 16388\n",
        28,
    ),
    (
        "decode",
        32_776,
        b"",
        2,
        "bad input 1: too wide 16388\n",
        28,
    ),
    // one byte more than the limit of the input
    ("make 1", 67_108_865, b"", 10, "too long 67108864\n", 18),
    ("merge", 67_108_865, b"", 10, "too long 67108864\n", 18),
    ("sim", 67_108_865, b"", 10, "too long 67108864\n", 18),
];

#[test]
fn the_largest_inputs_and_outputs(rt: HostRuntime) -> Result<(), Fail> {
    let alloc = rt.alloc();
    let streams = Streams {
        cut: 65536,
        failing_read: 0,
        failing_write: 0,
    };
    for (words, zeros, behind, code, start, len) in WIDE {
        let mut bytes = vec![in alloc; b'0'; *zeros]?;
        bytes.extend_from_slice(behind)?;
        let (ended, wrote) = outcome(alloc, words, bytes.as_slice(), streams)?;
        assert_eq!(rt; ended, *code, "{words}");
        assert_eq!(rt; wrote.len(), *len, "{words}");
        assert!(rt; wrote.starts_with(start.as_bytes()), "{words}");
    }
    Ok(())
}
