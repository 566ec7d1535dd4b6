//! One event at two nodes.

ghost use Rattle.std.specs.Prelude.{◌≡◌, ◌+◌, ◌-◌, ◌^◌, min, false, length, take, drop, IsTrue, OnOk, OnErr};
ghost use Rattle.id_rules.specs.Bytes.{is_tx_length};
ghost use Rattle.node_rules.specs.Additions.{on_addition};
ghost use Rattle.node_rules.specs.Memory.{view_behind_addition};
ghost use Rattle.pair_rules.specs.World.{fullness, has_end, is_event};
ghost use Rattle.relay_node.specs.Answers.{IsTaken};
ghost use Rattle.duet.specs.Events.{HasHappened, is_starved_by, told_on};
ghost use Rattle.duet.specs.Views.{world_of};

use crate::stop::DuetStop;
use base_types::{Bytes, OutOfMemory};
use node_rules::Added;
use pair_rules::{Event, Side};
use relay_node::{Node, Stop};
use std::alloc::Global;

/// An event at two nodes that have not ended. `full` counts the additions that find no room.
pub(crate) fn happen(
    alloc: Global,
    a: &mut Node,
    b: &mut Node,
    full: &mut u64,
    event: &Event,
) -> Result<(), DuetStop>
    requires memory_a { a.old.out_of_memory ≡ false }
    requires memory_b { b.old.out_of_memory ≡ false }
    requires unended { has_end (world_of a.old b.old) ≡ false }
    requires event { IsTrue (is_event event.now) }
    ensures { HasHappened a.old b.old full.old event.now a.new b.new full.new result }
{
    match event {
        Event::DeliverAb(n) => stop_of(Side::B, deliver(a, b, *n)),
        Event::DeliverBa(n) => stop_of(Side::A, deliver(b, a, *n)),
        Event::AddA(tx) => Ok(add(alloc, a, tx, full)?),
        Event::AddB(tx) => Ok(add(alloc, b, tx, full)?),
        Event::Round => {
            a.begin_round()?;
            Ok(())
        }
    }
}

/// The first `n` bytes that a node has to send reach the other, or all where there are fewer. They are sent in every case.
fn deliver(sender: &mut Node, reader: &mut Node, n: u64) -> Result<(), Stop>
    ensures sent { sender.new ≡ record sender.old { outbox = drop n sender.old.outbox } }
    ensures taken { IsTaken reader.old (take n sender.old.outbox) reader.new result }
{
    let waiting = sender.outbox();
    let count = n.min(waiting.len() as u64) as usize;
    let told = reader.take(&waiting[..count]);
    sender.drain(count);
    told
}

/// Adds a copy of a transaction. Where memory runs out, nothing changes.
fn add(alloc: Global, node: &mut Node, tx: &Bytes, full: &mut u64) -> Result<(), OutOfMemory>
    requires { IsTrue (is_tx_length (length tx.now)) }
    ensures memory { OnOk result (node.old.out_of_memory ≡ false) }
    ensures node { OnOk result (node.new ≡ view_behind_addition node.old tx.now) }
    ensures full { OnOk result (full.new ≡ min (full.old + fullness (on_addition node.old.state tx.now).added) (2 ^ 64 - 1)) }
    ensures err { OnErr result ((node.new ≡ node.old) × (full.new ≡ full.old)) }
{
    let copy = Bytes::from_vec(tx.as_slice().to_vec(alloc)?);
    let added = node.add(copy)?;
    *full = full_behind(*full, added);
    Ok(())
}

/// The count behind an addition.
fn full_behind(full: u64, added: Added) -> u64
    ensures { result ≡ min (full + fullness added) (2 ^ 64 - 1) }
{
    match added {
        Added::Full => full.saturating_add(1),
        Added::New | Added::Present | Added::Ended => full,
    }
}

/// What the node on this side has answered.
fn stop_of(side: Side, told: Result<(), Stop>) -> Result<(), DuetStop>
    ensures { result ≡ told_on side told }
{
    match told {
        Ok(()) => Ok(()),
        Err(Stop::Ended(end)) => Err(DuetStop::Ended { side, end }),
        Err(Stop::OutOfMemory) => Err(DuetStop::OutOfMemory),
    }
}

/// Whether memory was refused.
pub(crate) fn is_out_of_memory(told: &Result<(), DuetStop>) -> bool
    ensures { result ≡ is_starved_by told.now }
{
    matches!(told, Err(DuetStop::OutOfMemory))
}
