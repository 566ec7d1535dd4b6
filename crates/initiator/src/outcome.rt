//! How a round ends.

ghost use Rattle.std.specs.Prelude.{◌≡◌, ℕ, ◌<◌, ◌≤◌, ◌^◌, [], ◌∷◌, ◌++◌, length, map, IfOk};
ghost use Rattle.sketch_rules.specs.Answers.{IsAscending};
ghost use Rattle.wire_rules.specs.declared.message.Message.TheVariants as message;
ghost use Rattle.pool_rules.specs.declared.limits.TheConstants.{POOL_LIMIT};
ghost use Rattle.node_rules.specs.Opener.{coefficient_after};
ghost use Rattle.node_rules.specs.Outcomes.{missing_short_ids};
ghost use Rattle.node_rules.specs.Turns.{inv_of};
ghost use Rattle.initiator.specs.Outcomes.{answered_outcome, fallback_outcome};

use base_types::{Hash32, OutOfMemory, Shorts};
use capacity_rule::{next_q, next_q_failed};
use field_core::Field;
use inventories::push_announcement;
use pool_rules::{Ending, Report};
use recon_set::Snapshot;
use std::alloc::Global;
use wire_rules::{Message, Outs};

/// How a round ends: what is told of it, the coefficient of the next one, and what is sent.
#[derive(Drop)]
pub(crate) struct Outcome {
    pub(crate) report: Report,
    pub(crate) coefficient: u16,
    pub(crate) messages: Outs,
}

/// The peer's set and the snapshot differ in these short ids: those that are missing are asked for, and those that the
/// peer lacks are announced.
pub(crate) fn answered<F: Field>(
    alloc: Global,
    snapshot: &Snapshot<F>,
    capacity: u32,
    ending: Ending,
    shorts: Shorts,
    ping: u64,
) -> Result<Outcome, OutOfMemory>
    requires rises { IsAscending 1 (2 ^ 32) shorts }
    requires few { length shorts ≤ POOL_LIMIT }
    ensures { IfOk result (λ outcome. outcome
        ≡ answered_outcome (record { snapshot = snapshot.now.members; capacity = capacity; sums = [] }) ending shorts ping) }
{
    let asks = missing(alloc, snapshot, shorts.as_slice())?;
    let coefficient = next_coefficient(snapshot, shorts.as_slice(), asks.as_slice())?;
    let announced = snapshot.announced(shorts.as_slice())?;
    let messages = closing(alloc, true, asks, announced.as_slice(), ping)?;
    let ids = snapshot.ids()?;
    Ok(Outcome {
        report: Report {
            snapshot: ids,
            capacity,
            ending,
            answered: shorts,
        },
        coefficient,
        messages,
    })
}

/// Nothing is known of what the peer lacks, and all is announced. The coefficient of the round was `q`.
pub(crate) fn fallen_back<F: Field>(
    alloc: Global,
    snapshot: &Snapshot<F>,
    capacity: u32,
    q: u16,
    ping: u64,
) -> Result<Outcome, OutOfMemory>
    ensures { IfOk result (λ outcome. outcome
        ≡ fallback_outcome (record { snapshot = snapshot.now.members; capacity = capacity; sums = [] }) q ping) }
{
    let ids = snapshot.ids()?;
    let no_asks = Shorts::from_vec(Vec::new(alloc));
    let messages = closing(alloc, false, no_asks, ids.as_slice(), ping)?;
    Ok(Outcome {
        report: Report {
            snapshot: ids,
            capacity,
            ending: Ending::Fallback,
            answered: Shorts::from_vec(Vec::new(alloc)),
        },
        coefficient: next_q_failed(q),
        messages,
    })
}

/// The elements as short ids.
pub(crate) fn short_ids<F: Field>(alloc: Global, elements: &[F]) -> Result<Shorts, OutOfMemory>
    requires { F.BITS ≡ 32 }
    ensures { IfOk result (λ shorts. shorts ≡ map F.bits_of elements.now) }
{
    let mut shorts = Vec::with_capacity(alloc, elements.len())?;
    for element in elements {
        shorts.push(element.to_bits() as u32)?;
    }
    Ok(Shorts::from_vec(shorts))
}

/// Those of the short ids that aren't sketched.
fn missing<F: Field>(
    alloc: Global,
    snapshot: &Snapshot<F>,
    shorts: &[u32],
) -> Result<Shorts, OutOfMemory>
    ensures { IfOk result (λ asks. asks ≡ missing_short_ids snapshot.now.members shorts.now) }
{
    let mut asks = Vec::new(alloc);
    for short in shorts {
        if !snapshot.has_sketched(*short) {
            asks.push(*short)?;
        }
    }
    Ok(Shorts::from_vec(asks))
}

/// The next coefficient behind a round that was answered by these short ids, of which these are asked for.
fn next_coefficient<F: Field>(
    snapshot: &Snapshot<F>,
    shorts: &[u32],
    asks: &[u32],
) -> Result<u16, OutOfMemory>
    requires asks { asks.now ≡ missing_short_ids snapshot.now.members shorts.now }
    requires rises { IsAscending 1 (2 ^ 32) shorts.now }
    requires few { length shorts.now ≤ POOL_LIMIT }
    ensures { IfOk result (λ q. q ≡ coefficient_after snapshot.now.members shorts.now) }
{
    let sketched = snapshot.sketched()?;
    let own = sketched.as_slice().len();
    prove!(own <= snapshot.len());
    let mine = shorts.len() - asks.len();
    Ok(next_q(mine as u32, asks.len() as u32, own as u32))
}

/// What closes a round: what is asked for, what is announced, and the ping.
fn closing(
    alloc: Global,
    success: bool,
    asks: Shorts,
    announced: &[Hash32],
    ping: u64,
) -> Result<Outs, OutOfMemory>
    ensures { IfOk result (λ messages. messages
        ≡ message.ReconcilDiff success asks ∷ (inv_of announced.now ++ message.Ping ping ∷ [])) }
{
    let mut messages = Vec::new(alloc);
    messages.push(Message::ReconcilDiff { success, asks })?;
    push_announcement(alloc, &mut messages, announced)?;
    messages.push(Message::Ping(ping))?;
    Ok(Outs::from_vec(messages))
}
