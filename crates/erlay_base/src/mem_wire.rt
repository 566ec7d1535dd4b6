//! A wire over given bytes.

ghost use Rattle.std.specs.Prelude.{◌≡◌, ◌≤◌, ◌<◌, ◌∷◌, ◌++◌, Some, [], true, false, IfOk, IsErr, OnErr, OnOk, length, map, min, take};
ghost use Rattle.std.specs.List.{Contains};
ghost use Rattle.std.specs.Io.{ReadsAtMost, WritesAtMost};
ghost use Rattle.link_rules.specs.Links.{ConnectCall, ListenCall, AcceptCall};
ghost use Rattle.erlay_base.specs.Causes.{HasCause, next_count, count_if_failed};
ghost use Rattle.erlay_base.specs.LinkFakes.{call_of, coming_on_link, has_ended_input, piece_of, told_link};
ghost use Rattle.erlay_base.specs.Moves.{HasProgress};
ghost use Rattle.erlay_base.specs.WireCalls.{IsUnused, IsStarted, IsListened, IsReceived, IsSent, IsEndTold};

use crate::Wire;
use crate::calls::{fault, is_over_after, is_to_fail};
use base_types::Failed;
use std::alloc::{AllocError, Global};
use std::marker::Model;

/// A call that asked for a link, with its address.
#[derive(Debug, Drop)]
pub(crate) enum KeptCall {
    Connect(String),
    Listen(String),
    Accept,
}

/// A piece that was received, and how many bytes had been sent before it.
#[derive(Debug, Drop)]
pub(crate) struct KeptPiece {
    bytes: Vec<u8>,
    sent_before: usize,
}

/// Gives the bytes that it was made with on its first link, and none on later ones, and keeps those
/// that are sent; at most `cut` a call. It tells all. The calls whose numbers it was given fail; calls
/// are counted from 1. Any other call may fail for want of memory for what it keeps, and counts that
/// as a fault; such a call may be missing from the calls that it tells.
#[derive(Debug, Drop)]
pub struct MemWire {
    alloc: Global,
    bytes: Vec<u8>,
    at: usize,
    sent: Vec<u8>,
    pieces: Vec<KeptPiece>,
    asked: Vec<KeptCall>,
    is_linked: bool,
    is_listening: bool,
    is_over: bool,
    cut: usize,
    failing: Vec<u64>,
    calls: u64,
    faults: u64,
}

impl Model for MemWire {
    ghost use Rattle.std.specs.Prelude.{◌≤◌, drop, map, vec_len};
    ghost use Rattle.erlay_base.specs.LinkFakes.{WireState, call_of, piece_of};

    ghost Value = { WireState };

    ghost view = { λ s. record {
      asked = map call_of s.asked.items;
      coming = drop s.at s.bytes.items;
      sent = s.sent.items;
      pieces = map piece_of s.pieces.items;
      is_linked = s.is_linked;
      is_listening = s.is_listening;
      is_over = s.is_over;
      cut = s.cut;
      failing = s.failing.items;
      calls = s.calls;
      faults = s.faults;
    } };

    ghost invariant = { λ s. (s.at ≤ vec_len s.bytes) × (1 ≤ s.cut) };
}

impl MemWire {
    /// A wire with no link, over whose first link the bytes `coming` will come. Each call moves at most
    /// `cut` bytes. The calls with the numbers `failing` fail.
    pub fn new(alloc: Global, coming: Vec<u8>, cut: usize, failing: Vec<u64>) -> MemWire
        requires { 1 ≤ cut }
        ensures asked { result.asked ≡ [] }
        ensures coming { result.coming ≡ coming.items }
        ensures sent { result.sent ≡ [] }
        ensures pieces { result.pieces ≡ [] }
        ensures linked { result.is_linked ≡ false }
        ensures listening { result.is_listening ≡ false }
        ensures over { result.is_over ≡ false }
        ensures cut { result.cut ≡ cut }
        ensures failing { result.failing ≡ failing.items }
        ensures calls { result.calls ≡ 0 }
        ensures faults { result.faults ≡ 0 }
    {
        MemWire {
            alloc,
            bytes: coming,
            at: 0,
            sent: Vec::new(alloc),
            pieces: Vec::new(alloc),
            asked: Vec::new(alloc),
            is_linked: false,
            is_listening: false,
            is_over: false,
            cut,
            failing,
            calls: 0,
            faults: 0,
        }
    }

    /// The bytes sent over the current link, and none where no link was started.
    pub fn sent(&self) -> &[u8]
        ensures { result.now ≡ self.now.sent }
    {
        self.sent.as_slice()
    }
}

impl Wire for MemWire {
    ghost use Rattle.std.specs.Prelude.{Some, refl};
    ghost use Rattle.erlay_base.specs.LinkFakes.{has_ended_input, told_link};

    ghost link = { λ w. Some (told_link w) };

    ghost is_linked = { λ w. w.is_linked };

    ghost is_listening = { λ w. w.is_listening };

    ghost has_ended = { λ w. has_ended_input w.is_linked w.is_over };

    ghost faults = { λ w. w.faults };

    ghost told_end = { λ w. refl };

    ghost unlinked = { λ w e. rw e refl };

    fn connect(&mut self, address: &str) -> Result<(), Failed>
        ensures link { IsStarted result (ConnectCall address.now) (told_link self.old) (told_link self.new) }
        ensures unused { OnOk result (IsUnused (Some (told_link self.new))) }
        ensures linked { OnOk result (self.new.is_linked ≡ true) }
        ensures fresh { OnOk result (has_ended_input self.new.is_linked self.new.is_over ≡ false) }
        ensures still_linked { OnErr result (self.new.is_linked ≡ self.old.is_linked) }
        ensures still_ended { OnErr result (has_ended_input self.new.is_linked self.new.is_over ≡ has_ended_input self.old.is_linked self.old.is_over) }
        ensures still_listening { self.new.is_listening ≡ self.old.is_listening }
        ensures cause { HasCause self.old.faults self.new.faults result }
        ensures coming { OnOk result (self.new.coming ≡ coming_on_link self.old.is_linked self.old.coming) }
        ensures failing { Contains self.old.failing self.new.calls → IsErr result }
        ensures calls { self.new.calls ≡ next_count self.old.calls }
        ensures faults { self.new.faults ≡ count_if_failed result self.old.faults }
        ensures same { (self.new.cut ≡ self.old.cut) × (self.new.failing ≡ self.old.failing) }
    {
        let is_to_fail = is_to_fail(self.failing.as_slice(), &mut self.calls);
        if keep_connect(self.alloc, &mut self.asked, address).is_err() || is_to_fail {
            return Err(fault(&mut self.faults));
        }
        self.start();
        Ok(())
    }

    fn listen(&mut self, address: &str) -> Result<(), Failed>
        ensures link { IsListened result (ListenCall address.now) (told_link self.old) (told_link self.new) }
        ensures listening { OnOk result (self.new.is_listening ≡ true) }
        ensures still_listening { OnErr result (self.new.is_listening ≡ self.old.is_listening) }
        ensures still_linked { self.new.is_linked ≡ self.old.is_linked }
        ensures still_ended { has_ended_input self.new.is_linked self.new.is_over ≡ has_ended_input self.old.is_linked self.old.is_over }
        ensures cause { HasCause self.old.faults self.new.faults result }
        ensures failing { Contains self.old.failing self.new.calls → IsErr result }
        ensures calls { self.new.calls ≡ next_count self.old.calls }
        ensures faults { self.new.faults ≡ count_if_failed result self.old.faults }
        ensures same { (self.new.cut ≡ self.old.cut) × (self.new.failing ≡ self.old.failing) }
    {
        let is_to_fail = is_to_fail(self.failing.as_slice(), &mut self.calls);
        if keep_listen(self.alloc, &mut self.asked, address).is_err() || is_to_fail {
            return Err(fault(&mut self.faults));
        }
        self.is_listening = true;
        Ok(())
    }

    fn accept(&mut self) -> Result<(), Failed>
        requires { self.old.is_listening ≡ true }
        ensures link { IsStarted result AcceptCall (told_link self.old) (told_link self.new) }
        ensures unused { OnOk result (IsUnused (Some (told_link self.new))) }
        ensures linked { OnOk result (self.new.is_linked ≡ true) }
        ensures fresh { OnOk result (has_ended_input self.new.is_linked self.new.is_over ≡ false) }
        ensures still_linked { OnErr result (self.new.is_linked ≡ self.old.is_linked) }
        ensures still_ended { OnErr result (has_ended_input self.new.is_linked self.new.is_over ≡ has_ended_input self.old.is_linked self.old.is_over) }
        ensures still_listening { self.new.is_listening ≡ self.old.is_listening }
        ensures cause { HasCause self.old.faults self.new.faults result }
        ensures coming { OnOk result (self.new.coming ≡ coming_on_link self.old.is_linked self.old.coming) }
        ensures failing { Contains self.old.failing self.new.calls → IsErr result }
        ensures calls { self.new.calls ≡ next_count self.old.calls }
        ensures faults { self.new.faults ≡ count_if_failed result self.old.faults }
        ensures same { (self.new.cut ≡ self.old.cut) × (self.new.failing ≡ self.old.failing) }
    {
        let is_to_fail = is_to_fail(self.failing.as_slice(), &mut self.calls);
        if keep_accept(&mut self.asked).is_err() || is_to_fail {
            return Err(fault(&mut self.faults));
        }
        self.start();
        Ok(())
    }

    fn receive(&mut self, buf: &mut [u8]) -> Result<usize, Failed>
        requires { self.old.is_linked ≡ true }
        ensures bound { ReadsAtMost result buf.new }
        ensures link { IsReceived result buf.new (told_link self.old) (told_link self.new) }
        ensures input { IfOk result (λ n. IsEndTold n (length buf.new) (has_ended_input self.old.is_linked self.old.is_over) (has_ended_input self.new.is_linked self.new.is_over)) }
        ensures still_ended { OnErr result (has_ended_input self.new.is_linked self.new.is_over ≡ has_ended_input self.old.is_linked self.old.is_over) }
        ensures still_linked { self.new.is_linked ≡ true }
        ensures still_listening { self.new.is_listening ≡ self.old.is_listening }
        ensures cause { HasCause self.old.faults self.new.faults result }
        ensures count { IfOk result (λ n. n ≡ min self.old.cut (min (length buf.old) (length self.old.coming))) }
        ensures failing { Contains self.old.failing self.new.calls → IsErr result }
        ensures calls { self.new.calls ≡ next_count self.old.calls }
        ensures faults { self.new.faults ≡ count_if_failed result self.old.faults }
        ensures same { (self.new.cut ≡ self.old.cut) × (self.new.failing ≡ self.old.failing) }
    {
        if is_to_fail(self.failing.as_slice(), &mut self.calls) {
            return Err(fault(&mut self.faults));
        }
        let count = copy_front(&self.bytes[self.at..], self.cut, buf);
        let Ok(()) = keep_piece(self.alloc, &mut self.pieces, &buf[..count], self.sent.len()) else {
            return Err(fault(&mut self.faults));
        };
        self.at += count;
        self.is_over = is_over_after(self.is_over, count, buf.len());
        Ok(count)
    }

    fn send(&mut self, piece: &[u8]) -> Result<usize, Failed>
        requires { self.old.is_linked ≡ true }
        ensures bound { WritesAtMost result piece.now }
        ensures some { HasProgress result piece.now }
        ensures link { IsSent result piece.now (told_link self.old) (told_link self.new) }
        ensures still_ended { has_ended_input self.new.is_linked self.new.is_over ≡ has_ended_input self.old.is_linked self.old.is_over }
        ensures still_linked { self.new.is_linked ≡ true }
        ensures still_listening { self.new.is_listening ≡ self.old.is_listening }
        ensures cause { HasCause self.old.faults self.new.faults result }
        ensures count { IfOk result (λ n. n ≡ min self.old.cut (length piece.now)) }
        ensures failing { Contains self.old.failing self.new.calls → IsErr result }
        ensures calls { self.new.calls ≡ next_count self.old.calls }
        ensures faults { self.new.faults ≡ count_if_failed result self.old.faults }
        ensures same { (self.new.cut ≡ self.old.cut) × (self.new.failing ≡ self.old.failing) }
    {
        if is_to_fail(self.failing.as_slice(), &mut self.calls) {
            return Err(fault(&mut self.faults));
        }
        let count = self.cut.min(piece.len());
        if self.sent.extend_from_slice(&piece[..count]).is_err() {
            return Err(fault(&mut self.faults));
        }
        Ok(count)
    }
}

impl MemWire {
    // A new link. Over the first one all bytes come that the wire was made with, and none over later ones.
    fn start(&mut self)
        ensures asked { self.new.asked ≡ self.old.asked }
        ensures coming { self.new.coming ≡ coming_on_link self.old.is_linked self.old.coming }
        ensures sent { self.new.sent ≡ [] }
        ensures pieces { self.new.pieces ≡ [] }
        ensures linked { self.new.is_linked ≡ true }
        ensures over { self.new.is_over ≡ false }
        ensures listening { self.new.is_listening ≡ self.old.is_listening }
        ensures same { (self.new.cut ≡ self.old.cut) × (self.new.failing ≡ self.old.failing) }
        ensures counts { (self.new.calls ≡ self.old.calls) × (self.new.faults ≡ self.old.faults) }
    {
        if self.is_linked {
            self.at = self.bytes.len();
        }
        self.sent.clear();
        self.pieces.clear();
        self.is_linked = true;
        self.is_over = false;
    }
}

// Adds a connect to the calls that are told.
fn keep_connect(alloc: Global, asked: &mut Vec<KeptCall>, address: &str) -> Result<(), AllocError>
    ensures ok { OnOk result (map call_of asked.new.items ≡ map call_of asked.old.items ++ ConnectCall address.now ∷ []) }
    ensures err { OnErr result (map call_of asked.new.items ≡ map call_of asked.old.items) }
{
    let address = String::from_str(alloc, address)?;
    asked.push(KeptCall::Connect(address))?;
    Ok(())
}

// Adds a listen to the calls that are told.
fn keep_listen(alloc: Global, asked: &mut Vec<KeptCall>, address: &str) -> Result<(), AllocError>
    ensures ok { OnOk result (map call_of asked.new.items ≡ map call_of asked.old.items ++ ListenCall address.now ∷ []) }
    ensures err { OnErr result (map call_of asked.new.items ≡ map call_of asked.old.items) }
{
    let address = String::from_str(alloc, address)?;
    asked.push(KeptCall::Listen(address))?;
    Ok(())
}

// Adds an accept to the calls that are told.
fn keep_accept(asked: &mut Vec<KeptCall>) -> Result<(), AllocError>
    ensures ok { OnOk result (map call_of asked.new.items ≡ map call_of asked.old.items ++ AcceptCall ∷ []) }
    ensures err { OnErr result (map call_of asked.new.items ≡ map call_of asked.old.items) }
{
    asked.push(KeptCall::Accept)?;
    Ok(())
}

// Adds a piece to those that are told, where it isn't empty.
fn keep_piece(
    alloc: Global,
    pieces: &mut Vec<KeptPiece>,
    bytes: &[u8],
    sent_before: usize,
) -> Result<(), AllocError>
    ensures piece { OnOk result (0 < length bytes.now → map piece_of pieces.new.items ≡ map piece_of pieces.old.items ++ record { bytes = bytes.now; sent_before = sent_before } ∷ []) }
    ensures none { OnOk result (length bytes.now ≡ 0 → map piece_of pieces.new.items ≡ map piece_of pieces.old.items) }
    ensures err { OnErr result (map piece_of pieces.new.items ≡ map piece_of pieces.old.items) }
{
    if bytes.is_empty() {
        return Ok(());
    }
    let bytes = bytes.to_vec(alloc)?;
    pieces.push(KeptPiece { bytes, sent_before })?;
    Ok(())
}

// Copies the front of `bytes`, as many as there are, fit and may be.
fn copy_front(bytes: &[u8], cut: usize, buf: &mut [u8]) -> usize
    ensures count { result ≡ min cut (min (length buf.old) (length bytes.now)) }
    ensures front { take result buf.new ≡ take result bytes.now }
    ensures len { length buf.new ≡ length buf.old }
{
    let count = cut.min(buf.len().min(bytes.len()));
    buf[..count].copy_from_slice(&bytes[..count]);
    count
}
