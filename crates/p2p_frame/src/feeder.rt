//! A stream that comes in pieces, frame by frame.

ghost use Rattle.std.specs.Prelude.{◌≡◌, ℕ, ◌≤◌, Some, None, Ok, IsSome, IfOk, OnOk, OnSome, List, [], ◌++◌, is_ok, if◌then◌else◌, length, drop, vec_len};
ghost use Rattle.wire_rules.specs.declared.frame.Frame.{Frame};
ghost use Rattle.p2p_frame.specs.Feeding.{Feed, IsNext, IsWhole, feed_after, feed_front, feed_with, frame_in};
ghost use Rattle.p2p_frame.specs.Fed.{IsAnswered, IsFed, IsFeeder, IsPassed};
ghost use Rattle.p2p_frame.specs.Views.{owned_answer};

use crate::FeedStop;
use crate::front::answer_in_front;
use crate::header::Header;
use base_types::{Bytes, OutOfMemory};
use std::alloc::Global;
use std::marker::Model;
use wire_rules::{Frame, FrameFault, FrameRef};

/// The unread bytes of a network's stream.
#[derive(Debug, Drop)]
pub struct Feeder {
    magic: [u8; 4],
    bytes: Vec<u8>,
    /// How many of the bytes were skipped.
    skipped: usize,
    place: u64,
    stop: Option<FrameFault>,
}

impl Model for Feeder {
    ghost use Rattle.std.specs.Prelude.{◌≡◌, ◌≤◌, Some, drop, vec_len};
    ghost use Rattle.wire_rules.specs.Stream.{FaultyFrame, front_of};
    ghost use Rattle.wire_rules.specs.declared.frame.FrameFault.{FrameFault};
    ghost use Rattle.p2p_frame.specs.Feeding.{Feed};

    ghost Value = { Feed };

    ghost view = { λ s. record { magic = s.magic; unread = drop s.skipped s.bytes.items; place = s.place; stop = s.stop } };

    ghost invariant = { λ s. (s.skipped ≤ vec_len s.bytes)
        × ((fault : FrameFault) → s.stop ≡ Some fault → front_of s.magic s.place (drop s.skipped s.bytes.items) ≡ FaultyFrame fault) };
}

impl Feeder {
    /// A feeder of a stream's first byte on. It takes no memory yet.
    pub fn new(alloc: Global, magic: [u8; 4]) -> Feeder
        ensures value { result ≡ record { magic = magic; unread = []; place = 0; stop = None } }
        ensures fed { IsFed result [] [] }
    {
        Feeder {
            magic,
            bytes: Vec::new(alloc),
            skipped: 0,
            place: 0,
            stop: None,
        }
    }

    /// Takes a piece of the stream, and lets go of what was skipped. Behind a fault that `next` answered the piece is passed
    /// over.
    pub fn push(&mut self, piece: &[u8]) -> Result<(), OutOfMemory>
        ensures held { self.new ≡ (if is_ok result then feed_with self.old piece.now else self.old) }
        ensures stopped { IsSome self.old.stop → result ≡ Ok tt }
        ensures fed { (bytes : List ℕ) (frames : List Frame) → IsFed self.old bytes frames → OnOk result (IsFed self.new (bytes ++ piece.now) frames) }
    {
        if self.stop.is_some() {
            return Ok(());
        }
        append(&mut self.bytes, &mut self.skipped, piece)
    }

    /// The frame in front, which is passed; none where its end is not there yet; or the fault in its place, which stays.
    /// Memory is taken for the payload.
    pub fn next(&mut self) -> Result<Option<Frame>, FeedStop>
        ensures answer { IsNext self.old self.new result }
        ensures fed { (bytes : List ℕ) (frames : List Frame) → IsFed self.old bytes frames → IsPassed self.new bytes frames result }
    {
        let frame = match self.front() {
            Ok(Some(lent)) => Frame {
                command: lent.command,
                payload: Bytes::from_vec(Vec::from_slice(*self.bytes.allocator(), lent.payload)?),
            },
            Ok(None) => return Ok(None),
            Err(fault) => {
                self.stop = Some(fault);
                return Err(FeedStop::Fault(fault));
            }
        };
        self.skip();
        Ok(Some(frame))
    }

    /// What `next` would answer, with the payload lent.
    pub fn front(&self) -> Result<Option<FrameRef<'_>>, FrameFault>
        ensures answer { owned_answer result ≡ frame_in (feed_front self.now) }
        ensures whole { IfOk result (λ found. OnSome found (IsWhole (feed_front self.now))) }
        ensures sound { IsFeeder self.now }
        ensures fed { (bytes : List ℕ) (frames : List Frame) → IsFed self.now bytes frames → IsAnswered self.now bytes frames (owned_answer result) }
    {
        answer_in_front(self.magic, self.place, self.stop, self.unread())
    }

    /// Passes the frame in front, as `next` does.
    pub fn skip(&mut self)
        requires { IsWhole (feed_front self.old) }
        ensures { self.new ≡ feed_after (feed_front self.old) self.old }
    {
        let size = Header::read(self.unread()).frame_size();
        self.skipped += size;
        self.place = self.place.saturating_add(size as u64);
    }

    /// How many bytes are unread.
    pub fn held(&self) -> usize
        ensures { result ≡ length self.now.unread }
    {
        self.unread().len()
    }

    /// The offset of the first unread byte in the whole stream. It stays at `2^64 - 1`.
    pub fn place(&self) -> u64
        ensures { result ≡ self.now.place }
    {
        self.place
    }

    /// The unread bytes.
    fn unread(&self) -> &[u8]
        ensures { result.now ≡ self.now.unread }
    {
        self.bytes.as_slice().split_at(self.skipped).1
    }
}

/// Appends a piece. The skipped bytes go first where they are no fewer than those behind them, so that a byte is moved at
/// most once for each byte that was skipped.
fn append(bytes: &mut Vec<u8>, skipped: &mut usize, piece: &[u8]) -> Result<(), OutOfMemory>
    requires { skipped.old ≤ vec_len bytes.old }
    ensures unread { drop skipped.new bytes.new.items ≡ (if is_ok result then drop skipped.old bytes.old.items ++ piece.now else drop skipped.old bytes.old.items) }
    ensures within { skipped.new ≤ vec_len bytes.new }
{
    if bytes.len() - *skipped <= *skipped {
        remove_front(bytes, *skipped);
        *skipped = 0;
    }
    bytes.extend_from_slice(piece)?;
    Ok(())
}

/// Removes so many bytes from the front.
fn remove_front(bytes: &mut Vec<u8>, n: usize)
    requires { n ≤ vec_len bytes.old }
    ensures { bytes.new.items ≡ drop n bytes.old.items }
{
    let len = bytes.len();
    bytes.as_mut_slice().copy_within(n..len, 0);
    bytes.truncate(len - n);
}
