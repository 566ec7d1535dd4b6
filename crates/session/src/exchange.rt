//! A session of one node over a wire.

ghost use Rattle.std.specs.Prelude.{◌≡◌, ◌≢◌, ◌<◌, ◌≤◌, ℕ, Bool, true, false, [], length, take, IfOk, IfErr, OnOk};
ghost use Rattle.std.specs.declared.option.Option.{Option};
ghost use Rattle.link_rules.specs.Links.{Link};
ghost use Rattle.session_rules.specs.Session.{Session};
ghost use Rattle.session_rules.specs.declared.limits.TheConstants.{PIECE_LIMIT, SESSION_LIMIT};
ghost use Rattle.session_rules.specs.declared.session_end.SessionEnd.TheVariants as session_end;
ghost use Rattle.erlay_base.specs.Causes.{HasCause};
ghost use Rattle.erlay_base.specs.WireCalls.{IsUnused};
ghost use Rattle.session.specs.Sessions.{HasCauseOfFault, HasSession, IsBusyIn, IsNew, end_in, is_input_over};
ghost use Rattle.session.specs.Standing.{IsReceipt, IsStanding, IsTurn, IsUnfinished, StandsThen};

use crate::progress::Progress;
use crate::steps::{end_of_input, is_finished, take};
use erlay_base::{Failed, Wire};
use relay_node::Node;
use session_rules::{PIECE_LIMIT, SESSION_LIMIT, SessionEnd};
use std::alloc::Global;

/// Lets a new node talk to the peer at the other end of a link. It sends all that waits, receives a piece of `PIECE_LIMIT`
/// bytes at most, hands it to the node, lets an opener between rounds begin one where fewer than `rounds` were begun, and goes
/// on. Memory for one piece is taken at first. It may wait for the peer.
pub fn session<W: Wire>(alloc: Global, wire: &mut W, node: &mut Node, rounds: u32) -> SessionEnd
    requires linked { W.is_linked wire.old ≡ true }
    requires input { W.has_ended wire.old ≡ false }
    requires unused { IsUnused (W.link wire.old) }
    requires node { IsNew node.old }
    ensures session { HasSession rounds node.old (W.link wire.old) (W.link wire.new) (W.has_ended wire.new) node.new result }
    ensures linked { W.is_linked wire.new ≡ true }

    // Of each answer, also where the wire doesn't tell its link:
    ensures ended { node.new.state.ended ≡ end_in result }
    ensures input { W.has_ended wire.new ≡ is_input_over node.old.state.config.role result }
    ensures busy { IsBusyIn node.old.state.config.role result }
    ensures fault { HasCauseOfFault (W.faults wire.old) (W.faults wire.new) result }
    ensures memory { result ≢ session_end.OutOfMemory → node.new.out_of_memory ≡ false }
{
    let Ok(mut buffer) = vec![in alloc; 0u8; PIECE_LIMIT] else {
        return SessionEnd::OutOfMemory;
    };
    let mut progress = Progress {
        opens: !node.outbox().is_empty(),
        left: rounds,
        received: 0,
    };
    loop {
        if let Err(answer) = turn(wire, node, buffer.as_mut_slice(), &mut progress) {
            return answer;
        }
    }
}

/// Sends all that waits, receives a piece, and hands it to the node.
fn turn<W: Wire>(
    wire: &mut W,
    node: &mut Node,
    buffer: &mut [u8],
    progress: &mut Progress,
) -> Result<(), SessionEnd>
    requires linked { W.is_linked wire.old ≡ true }
    requires buffer { length buffer.old ≡ PIECE_LIMIT }
    requires most { progress.old.received ≤ SESSION_LIMIT }
    ensures linked { W.is_linked wire.new ≡ true }
    ensures turn { (rounds : ℕ) (start : Session) (before : Option Link)
        → IsStanding progress.old.opens rounds start before (W.link wire.old) (W.has_ended wire.old) node.old progress.old.left progress.old.received
        → IsTurn progress.old.opens rounds start before (W.link wire.new) (W.has_ended wire.new) node.new progress.new.left progress.new.received result }
    ensures opens { progress.new.opens ≡ progress.old.opens }
    ensures more { OnOk result (progress.old.received < progress.new.received) }
    ensures most { progress.new.received ≤ SESSION_LIMIT }
    ensures fault { IfErr result (HasCauseOfFault (W.faults wire.old) (W.faults wire.new)) }
    ensures no_fault { OnOk result (W.faults wire.new ≡ W.faults wire.old) }
{
    let Ok(()) = send_all(wire, node) else {
        return Err(SessionEnd::LinkFault);
    };
    if is_finished(node, progress) {
        return Err(SessionEnd::Done);
    }
    let count = receive(wire, node, buffer, progress)?;
    take(node, &buffer[..count], &mut progress.left)
}

/// Sends all that waits. Where a call fails, what was sent by then waits no longer.
fn send_all<W: Wire>(wire: &mut W, node: &mut Node) -> Result<(), Failed>
    requires { W.is_linked wire.old ≡ true }
    ensures linked { W.is_linked wire.new ≡ true }
    ensures standing { StandsThen (W.link wire.old) (W.has_ended wire.old) node.old (W.link wire.new) (W.has_ended wire.new) node.new }
    ensures sent { OnOk result (node.new.outbox ≡ []) }
    ensures cause { HasCause (W.faults wire.old) (W.faults wire.new) result }
{
    while !node.outbox().is_empty() {
        let count = wire.send(node.outbox())?;
        node.drain(count);
    }
    Ok(())
}

/// Receives a piece to the front of the buffer, of no more bytes than the session may still receive, and answers how many
/// bytes that were.
fn receive<W: Wire>(
    wire: &mut W,
    node: &Node,
    buffer: &mut [u8],
    progress: &mut Progress,
) -> Result<usize, SessionEnd>
    requires linked { W.is_linked wire.old ≡ true }
    requires buffer { length buffer.old ≡ PIECE_LIMIT }
    requires most { progress.old.received ≤ SESSION_LIMIT }
    ensures linked { W.is_linked wire.new ≡ true }
    ensures receipt { (rounds : ℕ) (start : Session) (before : Option Link)
        → IsStanding progress.old.opens rounds start before (W.link wire.old) (W.has_ended wire.old) node.now progress.old.left progress.old.received
        → node.now.outbox ≡ []
        → IsUnfinished progress.old.opens progress.old.left node.now
        → IsReceipt progress.old.opens rounds start before (W.link wire.new) (W.has_ended wire.new) node.now progress.old.left progress.new.received buffer.new result }
    ensures within { IfOk result (λ n. n ≤ length buffer.new) }
    ensures more { OnOk result (progress.old.received < progress.new.received) }
    ensures most { progress.new.received ≤ SESSION_LIMIT }
    ensures same { (progress.new.opens ≡ progress.old.opens) × (progress.new.left ≡ progress.old.left) }
    ensures fault { IfErr result (HasCauseOfFault (W.faults wire.old) (W.faults wire.new)) }
    ensures no_fault { OnOk result (W.faults wire.new ≡ W.faults wire.old) }
{
    if progress.received == SESSION_LIMIT {
        return Err(SessionEnd::SessionLimit);
    }
    let room = (SESSION_LIMIT - progress.received).min(PIECE_LIMIT as u64) as usize;
    let Ok(count) = wire.receive(&mut buffer[..room]) else {
        return Err(SessionEnd::LinkFault);
    };
    if count == 0 {
        return Err(end_of_input(node, progress.opens));
    }
    progress.received += count as u64;
    Ok(count)
}
