//! Frames that are known, sent in uneven pieces.

use super::*;
use base_types::{Bytes, OutOfMemory};
use std::alloc::Global;
use wire_rules::Message;

/// The main network.
const MAIN: [u8; 4] = [0xF9, 0xBE, 0xB4, 0xD9];

/// The frames of `verack`, of `ping` with the bytes 1 to 8, and of `tx` with the bytes of "hello".
const FRAMES: &[u8] =
    b"\xf9\xbe\xb4\xd9verack\0\0\0\0\0\0\0\0\0\0\x5d\xf6\xe0\xe2\xf9\xbe\xb4\xd9ping\0\0\0\0\0\0\0\0\x08\0\0\0\x25\x02\xfa\x94\x01\x02\x03\x04\x05\x06\x07\x08\xf9\xbe\xb4\xd9tx\0\0\0\0\0\0\0\0\0\0\x05\0\0\0\x95\x95\xc9\xdfhello";

/// How many of these bytes are of the first two frames.
const TWO: usize = 56;

/// The message `tx` with the bytes of "hello".
#[tactic(auto, unfolding(wire_rules::specs::Limits::is_within_limits, wire_rules::specs::Limits::is_in_range))]
fn put_hello(alloc: Global, outbox: &mut Outbox) -> Result<(), OutOfMemory> {
    let tx = b"hello".to_vec(alloc)?;
    outbox.push(&Message::Tx(Bytes::from_vec(tx)))
}

/// The messages of the first two frames.
#[tactic(auto, unfolding(wire_rules::specs::Limits::is_within_limits, wire_rules::specs::Limits::is_in_range))]
fn put_two(outbox: &mut Outbox) -> Result<(), OutOfMemory> {
    outbox.push_all(&[Message::Verack, Message::Ping(0x0807_0605_0403_0201)])
}

/// Sends pieces of so many bytes, and tells whether the rest of these bytes waits behind each piece.
fn leaves_rest(outbox: &mut Outbox, pieces: &[usize], bytes: &[u8]) -> bool {
    let mut rest = bytes;
    for n in pieces.iter().copied() {
        if outbox.len() < n || rest.len() < n {
            return false;
        }
        outbox.drain(n);
        rest = rest.split_at(n).1;
        if outbox.as_slice() != rest {
            return false;
        }
    }
    true
}

#[test]
fn frames_leave_in_uneven_pieces(rt: HostRuntime) -> Result<(), OutOfMemory> {
    let alloc = rt.alloc();
    let mut outbox = Outbox::new(alloc, MAIN);
    put_two(&mut outbox)?;
    assert!(rt; leaves_rest(&mut outbox, &[0, 1, 29, 20], &FRAMES[..TWO]));
    put_hello(alloc, &mut outbox)?;
    assert!(rt; leaves_rest(&mut outbox, &[0, 7, 27, 1], &FRAMES[50..]));
    assert_eq!(rt; outbox.len(), 0);
    Ok(())
}

#[test]
fn a_lent_transaction_has_the_frame_of_its_message(rt: HostRuntime) -> Result<(), OutOfMemory> {
    let alloc = rt.alloc();
    let mut owned = Outbox::new(alloc, MAIN);
    put_hello(alloc, &mut owned)?;
    let mut lent = Outbox::new(alloc, MAIN);
    lent.push_tx(b"hello")?;
    assert_eq!(rt; owned.as_slice(), &FRAMES[TWO..]);
    assert_eq!(rt; lent.as_slice(), &FRAMES[TWO..]);
    Ok(())
}

#[test]
fn what_was_put_last_is_taken_back(rt: HostRuntime) -> Result<(), OutOfMemory> {
    let alloc = rt.alloc();
    let mut outbox = Outbox::new(alloc, MAIN);
    put_two(&mut outbox)?;
    assert!(rt; leaves_rest(&mut outbox, &[5], &FRAMES[..TWO]));
    let len = outbox.len();
    outbox.push_tx(b"hello")?;
    outbox.truncate(len.min(outbox.len()));
    assert_eq!(rt; outbox.as_slice(), &FRAMES[5..TWO]);
    outbox.truncate(0);
    assert!(rt; outbox.as_slice().is_empty());
    Ok(())
}
