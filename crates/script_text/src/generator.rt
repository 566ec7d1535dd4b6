//! Scripts made from a number.

ghost use Rattle.std.specs.Prelude.{◌≡◌, ◌/◌, ◌^◌, ◌++◌, IfOk, OnOk};
ghost use Rattle.pair_rules.specs.World.{IsScript};
ghost use Rattle.protocol_text_rules.specs.Generator as generator;
ghost use Rattle.protocol_text_rules.specs.Generator.{additions_by, generated_rounds};

use crate::events::{push_deliveries, push_event};
use base_types::{Bytes, OutOfMemory};
use pair_rules::Event;
use std::alloc::Global;

/// The script of a number `n`: `n` transactions of 16 bytes that go to a, to b or to both, and a round; one more
/// transaction, which comes to a during the round; and another round.
pub fn generated_script(alloc: Global, n: u64) -> Result<Vec<Event>, OutOfMemory>
    ensures made { IfOk result (λ events. events.items ≡ generator.generated_script n) }
    ensures sound { IfOk result (λ events. IsScript events.items) }
{
    let mut events = Vec::new(alloc);
    let mut number = n;
    for i in 0..n {
        number = next_number(number);
        push_additions(alloc, &mut events, i, number)?;
    }
    let last = generated_tx(alloc, n, next_number(number))?;
    push_rounds(&mut events, last)?;
    Ok(events)
}

/// The number behind `number`, of 64 bits: the linear congruence with the constants of Knuth's MMIX.
fn next_number(number: u64) -> u64
    ensures { result ≡ generator.next_number number }
{
    number
        .wrapping_mul(6_364_136_223_846_793_005)
        .wrapping_add(1_442_695_040_888_963_407)
}

/// Transaction `i`, with its number: both in 8 bytes, the least significant first.
fn generated_tx(alloc: Global, i: u64, number: u64) -> Result<Bytes, OutOfMemory>
    ensures { IfOk result (λ tx. tx ≡ generator.generated_tx i number) }
{
    let mut tx = Vec::with_capacity(alloc, 16)?;
    tx.extend_from_slice(&i.to_le_bytes())?;
    tx.extend_from_slice(&number.to_le_bytes())?;
    Ok(Bytes::from_vec(tx))
}

/// Adds transaction `i` to the sides that its number says.
fn push_additions(
    alloc: Global,
    events: &mut Vec<Event>,
    i: u64,
    number: u64,
) -> Result<(), OutOfMemory>
    ensures { OnOk result (events.new.items ≡ events.old.items ++ additions_by (number / 2 ^ 60) (generator.generated_tx i number)) }
{
    let tx = generated_tx(alloc, i, number)?;
    match number >> 60 {
        0 => push_event(events, Event::AddA(tx)),
        1 => push_event(events, Event::AddB(tx)),
        _ => {
            push_event(events, Event::AddA(tx))?;
            push_event(events, Event::AddB(generated_tx(alloc, i, number)?))
        }
    }
}

/// Puts both rounds behind what is there, the first with the addition of `tx`.
fn push_rounds(events: &mut Vec<Event>, tx: Bytes) -> Result<(), OutOfMemory>
    ensures { OnOk result (events.new.items ≡ events.old.items ++ generated_rounds tx) }
{
    push_deliveries(events)?;
    push_event(events, Event::Round)?;
    push_event(events, Event::DeliverAb(7))?;
    push_event(events, Event::AddA(tx))?;
    push_deliveries(events)?;
    push_event(events, Event::Round)?;
    push_deliveries(events)
}
