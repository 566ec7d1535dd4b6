use super::Pool;
use base_types::{Bytes, Hash32, Kind, OutOfMemory, TextFault};
use id_rules::TX_LIMIT;
use line_text::ReadStop;
use pool_rules::{Inserted, POOL_LIMIT};
use short_ids::wtxid;
use std::alloc::Global;
use std::test::Fail;

// The ids of the bytes of 'hello' and 'abc', by an independent implementation of SHA-256.
const HELLO: Hash32 = Hash32(
    *b"\x95\x95\xc9\xdf\x90\x07\x51\x48\xeb\x06\x86\x03\x65\xdf\x33\x58\x4b\x75\xbf\xf7\x82\xa5\x10\xc6\xcd\x48\x83\xa4\x19\x83\x3d\x50",
);

const ABC: Hash32 = Hash32(
    *b"\x4f\x8b\x42\xc2\x2d\xd3\x72\x9b\x51\x9b\xa6\xf6\x8d\x2d\xa7\xcc\x5b\x2d\x60\x6d\x05\xda\xed\x5a\xd5\x12\x8c\xc0\x3e\x6c\x63\x58",
);

const LINE: &[u8] =
    b"9595c9df90075148eb06860365df33584b75bff782a510c6cd4883a419833d50 68656c6c6f\n";

const ABC_LINE: &[u8] =
    b"4f8b42c22dd3729b519ba6f68d2da7cc5b2d606d05daed5ad5128cc03e6c6358 616263\n";

const UPPER_LINE: &[u8] =
    b"9595C9DF90075148EB06860365DF33584B75BFF782A510C6CD4883A419833D50 68656C6C6F\r\n";

const OTHER_LINE: &[u8] =
    b"9595c9df90075148eb06860365df33584b75bff782a510c6cd4883a419833d50 616263";

const NO_ID: &[u8] = b"9595c9df90075148eb06860365df33584b75bff782a510c6cd4883a419833d5g 6";

const ODD: &[u8] = b"9595c9df90075148eb06860365df33584b75bff782a510c6cd4883a419833d50 6g6";

const NO_TX: &[u8] = b"9595c9df90075148eb06860365df33584b75bff782a510c6cd4883a419833d50 6g";

const SHORT: &[u8] = b"9595c9df90075148eb06860365df33584b75bff782a510c6cd4883a419833d50 ";

const NO_SPACE: &[u8] = b"9595c9df90075148eb06860365df33584b75bff782a510c6cd4883a419833d50:68";

fn joined(alloc: Global, parts: &[&[u8]]) -> Result<Vec<u8>, Fail> {
    let mut text = Vec::new(alloc);
    for part in parts {
        text.extend_from_slice(part)?;
    }
    Ok(text)
}

// What becomes of a transaction, where its length is that of one.
fn put(pool: &mut Pool, tx: Vec<u8>) -> Result<Option<Inserted>, OutOfMemory> {
    if tx.is_empty() || TX_LIMIT < tx.len() {
        return Ok(None);
    }
    Ok(Some(pool.insert(Bytes::from_vec(tx))?))
}

#[test]
fn a_pool_has_what_was_put_in(rt: HostRuntime) -> Result<(), Fail> {
    let alloc = rt.alloc();
    let mut pool = Pool::empty(alloc);
    assert!(rt; pool.get(&HELLO).is_none());
    for (tx, inserted) in [
        (b"hello".as_slice(), Inserted::New),
        (b"abc".as_slice(), Inserted::New),
        (b"hello".as_slice(), Inserted::Present),
    ] {
        assert_eq!(rt;
            put(&mut pool, Vec::from_slice(alloc, tx)?)?,
            Some(inserted)
        );
    }
    assert_eq!(rt; pool.ids()?.as_slice(), [HELLO, ABC].as_slice());
    assert_eq!(rt; pool.get(&HELLO), Some(b"hello".as_slice()));
    assert!(rt; pool.contains(&ABC) && !pool.contains(&wtxid(b"")));
    assert_eq!(rt; pool.len(), 2);
    assert_eq!(rt; pool.byte_len(), 8);
    let text = joined(alloc, &[b"pool 2 2\n".as_slice(), LINE, ABC_LINE])?;
    assert_eq!(rt; pool.save_text()?.as_slice(), text.as_slice());
    Ok(())
}

/// What a pool file has in front, its first line and what stands behind it, and its first fault.
type Faulty = (&'static [u8], &'static [u8], &'static [u8], u64, Kind);

// Texts that begin as a heading does.
const HEADED: [Faulty; 14] = [
    (b"pool 2 2\n", LINE, b"", 1, Kind::LineCount),
    (b"pool 2 0\n", NO_ID, b"", 1, Kind::LineCount),
    (b"pool 2 50000\n", LINE, ABC_LINE, 2, Kind::LineCount),
    (b"pool 2 2\n", LINE, NO_TX, 3, Kind::BadDigit),
    (b"pool 2 2\n", LINE, LINE, 3, Kind::Repeated),
    (b"pool 3 0", b"", b"", 1, Kind::Form),
    (b"pool 2 01\n", LINE, b"", 1, Kind::Form),
    (b"pool 2 +1\n", LINE, b"", 1, Kind::Form),
    (b"pool 2 1 \n", LINE, b"", 1, Kind::Form),
    (b"\npool 2 \n", LINE, b"", 2, Kind::Form),
    (b"pool 2 50001\n", LINE, b"", 1, Kind::Form),
    (b"pool\n", LINE, b"", 1, Kind::Form),
    (b"Pool 2 1\n", LINE, b"", 1, Kind::Form),
    (b"pool 2 1\r\r\n", LINE, b"", 1, Kind::Form),
];

const MISMATCH: Kind = Kind::IdMismatch {
    stands: HELLO,
    computed: ABC,
};

// Texts that list transactions alone.
const LISTED: [Faulty; 8] = [
    (b"\n", SHORT, b"", 2, Kind::Form),
    (b"", NO_SPACE, b"", 1, Kind::Form),
    (b"", NO_ID, b"", 1, Kind::BadDigit),
    (b"", ODD, b"", 1, Kind::OddDigits),
    (b"", NO_TX, b"", 1, Kind::BadDigit),
    (b"", OTHER_LINE, b"", 1, MISMATCH),
    (b"", LINE, OTHER_LINE, 2, MISMATCH),
    (b"", LINE, UPPER_LINE, 2, Kind::Repeated),
];

#[test]
fn files_of_both_forms_are_read(rt: HostRuntime) -> Result<(), Fail> {
    let alloc = rt.alloc();
    let saved = joined(alloc, &[b"pool 2 1\n".as_slice(), LINE])?;
    for parts in [
        [b"".as_slice(), LINE],
        [b"pool 2 1\n".as_slice(), LINE],
        [b"\npool 2 1\r\n\n".as_slice(), UPPER_LINE],
    ] {
        let pool = Pool::load(alloc, &joined(alloc, &parts)?)?;
        assert_eq!(rt; pool.save_text()?.as_slice(), saved.as_slice());
    }
    Ok(())
}

#[test]
fn the_first_fault_of_a_file_is_named(rt: HostRuntime) -> Result<(), Fail> {
    let alloc = rt.alloc();
    for (front, first, behind, place, kind) in HEADED.iter().chain(&LISTED).copied() {
        let text = joined(alloc, &[front, first, behind])?;
        let stop = Pool::load(alloc, &text).err();
        assert_eq!(rt; stop, Some(ReadStop::Fault(TextFault { place, kind })));
    }
    Ok(())
}

// A transaction of this length that begins with a number.
fn numbered(alloc: Global, number: u64, len: usize) -> Result<Vec<u8>, Fail> {
    let mut tx = Vec::from_slice(alloc, &number.to_le_bytes())?;
    tx.resize(len, 0)?;
    Ok(tx)
}

#[test]
fn a_transaction_over_the_limit_is_too_long(rt: HostRuntime) -> Result<(), Fail> {
    let alloc = rt.alloc();
    let mut text = Vec::from_slice(alloc, &LINE[..65])?;
    text.resize(8_000_067, b'0')?;
    let stop = Pool::load(alloc, &text).err();
    let kind = Kind::TxTooLong;
    assert_eq!(rt; stop, Some(ReadStop::Fault(TextFault { place: 1, kind })));
    Ok(())
}

#[test]
fn the_line_that_finds_no_room_is_named(rt: HostRuntime) -> Result<(), Fail> {
    let alloc = rt.alloc();
    let mut text = Vec::new(alloc);
    for i in 0..50_001u64 {
        let tx = i.to_le_bytes();
        text.extend_from_slice(hex::encode(alloc, &wtxid(&tx).0)?.as_bytes())?;
        text.push(b' ')?;
        text.extend_from_slice(hex::encode(alloc, &tx)?.as_bytes())?;
        text.push(b'\n')?;
    }
    let stop = Pool::load(alloc, &text).err();
    let kind = Kind::PoolFull;
    assert_eq!(rt;
        stop,
        Some(ReadStop::Fault(TextFault {
            place: 50_001,
            kind
        }))
    );
    Ok(())
}

#[test]
fn a_pool_at_the_limit_of_transactions_is_full(rt: HostRuntime) -> Result<(), Fail> {
    let alloc = rt.alloc();
    let mut pool = Pool::empty(alloc);
    for i in 0..POOL_LIMIT {
        put(&mut pool, Vec::from_slice(alloc, &i.to_le_bytes())?)?;
    }
    assert_eq!(rt; pool.len(), POOL_LIMIT);
    assert_eq!(rt; pool.byte_len(), 400_000);
    for (tx, inserted) in [(50_000u64, Inserted::Full), (49_999, Inserted::Present)] {
        let tx = Vec::from_slice(alloc, &tx.to_le_bytes())?;
        assert_eq!(rt; put(&mut pool, tx)?, Some(inserted));
    }
    Ok(())
}

#[test]
fn a_pool_at_the_limit_of_bytes_is_full(rt: HostRuntime) -> Result<(), Fail> {
    let alloc = rt.alloc();
    let mut pool = Pool::empty(alloc);
    for i in 0..33 {
        put(&mut pool, numbered(alloc, i, TX_LIMIT)?)?;
    }
    for (number, len, inserted, bytes) in [
        (33, 2_217_729, Inserted::Full, 132_000_000),
        (34, 2_217_720, Inserted::New, 134_217_720),
        (35, 9, Inserted::Full, 134_217_720),
        (36, 8, Inserted::New, 134_217_728),
        (37, 1, Inserted::Full, 134_217_728),
        (36, 8, Inserted::Present, 134_217_728),
    ] {
        let tx = numbered(alloc, number, len)?;
        assert_eq!(rt; put(&mut pool, tx)?, Some(inserted));
        assert_eq!(rt; pool.byte_len(), bytes);
    }
    assert_eq!(rt; pool.len(), 35);
    Ok(())
}
