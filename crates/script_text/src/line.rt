//! The events of a line.

ghost use Rattle.std.specs.Prelude.{◌≡◌, ◌∷◌, [], false, bytes_eq, codes};
ghost use Rattle.protocol_text_rules.specs.Scripts.{addition, delivered_bytes, delivery, line_events, script_step};
ghost use Rattle.script_text.specs.Sides as sides;
ghost use Rattle.tx_pool.specs.Lines.{IsLineOutcome};

use crate::events::{push_deliveries, push_event};
use base_types::{Bytes, Kind};
use pair_rules::{Event, Side};
use std::alloc::Global;
use tx_pool::{LineStop, number_within, tx_in};

/// The most bytes that a line delivers.
const DELIVERY_LIMIT: u64 = 1_000_000_000;

/// Puts the events of a line behind what is there.
pub(crate) fn push_line(alloc: Global, events: &mut Vec<Event>, line: &[u8]) -> Result<(), LineStop>
    ensures { IsLineOutcome (λ _. events.new.items) result (script_step events.old.items line.now) }
{
    if line == b"drain".as_slice() {
        push_deliveries(events)?;
        return Ok(());
    }
    let event = match event_of(alloc, line) {
        Ok(event) => event,
        Err(stop) => return Err(stop),
    };
    push_event(events, event)?;
    Ok(())
}

/// The event of a line of one event.
fn event_of(alloc: Global, line: &[u8]) -> Result<Event, LineStop>
    requires { bytes_eq line.now (codes "drain") ≡ false }
    ensures { IsLineOutcome (λ event. event ∷ []) result (line_events line.now) }
{
    if line == b"round".as_slice() {
        return Ok(Event::Round);
    }
    if let Some(word) = line.strip_prefix(b"ab ") {
        return delivered(Side::A, word);
    }
    if let Some(word) = line.strip_prefix(b"ba ") {
        return delivered(Side::B, word);
    }
    if let Some(digits) = line.strip_prefix(b"a ") {
        return added(alloc, Side::A, digits);
    }
    if let Some(digits) = line.strip_prefix(b"b ") {
        return added(alloc, Side::B, digits);
    }
    Err(LineStop::Faulty(Kind::Form))
}

/// The delivery of as many bytes from a side as the word says.
fn delivered(from: Side, word: &[u8]) -> Result<Event, LineStop>
    ensures { IsLineOutcome (λ event. event ∷ []) result (delivery (sides.delivery_from from) (delivered_bytes word.now)) }
{
    match number_within(1, DELIVERY_LIMIT, word) {
        Some(n) => Ok(delivery_from(from, n)),
        None => Err(LineStop::Faulty(Kind::Form)),
    }
}

/// The addition to a side of the transaction that digits spell.
fn added(alloc: Global, to: Side, digits: &[u8]) -> Result<Event, LineStop>
    ensures { IsLineOutcome (λ event. event ∷ []) result (addition (sides.addition_to to) digits.now) }
{
    if digits.is_empty() {
        return Err(LineStop::Faulty(Kind::Form));
    }
    match tx_in(alloc, digits) {
        Ok(tx) => Ok(addition_to(to, tx)),
        Err(stop) => Err(stop),
    }
}

/// The delivery of `n` bytes that a side has sent.
fn delivery_from(from: Side, n: u64) -> Event
    ensures { result ≡ sides.delivery_from from n }
{
    match from {
        Side::A => Event::DeliverAb(n),
        Side::B => Event::DeliverBa(n),
    }
}

/// The addition of a transaction to a side.
fn addition_to(to: Side, tx: Bytes) -> Event
    ensures { result ≡ sides.addition_to to tx }
{
    match to {
        Side::A => Event::AddA(tx),
        Side::B => Event::AddB(tx),
    }
}
