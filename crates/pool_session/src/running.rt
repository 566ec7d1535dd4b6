//! A session of a new node, and its pool saved.

ghost use Rattle.std.specs.Prelude.{◌≡◌, ◌≢◌, ◌≤◌, true, false, Ok, IfOk, OnErr};
ghost use Rattle.erlay_base.specs.Causes.{HasRisen};
ghost use Rattle.erlay_base.specs.Told.{AreTold};
ghost use Rattle.erlay_base.specs.WireCalls.{IsUnused};
ghost use Rattle.node_rules.specs.Invariant.{IsConfig};
ghost use Rattle.node_rules.specs.State.{opening_state};
ghost use Rattle.protocol_text_rules.specs.Pairs.{session_text};
ghost use Rattle.session.specs.Sessions.{HasCauseOfFault, IsBusyIn, IsNew, IsReceivedInTime, is_input_over};
ghost use Rattle.session_rules.specs.Session.{session_start};
ghost use Rattle.session_rules.specs.declared.session_end.SessionEnd.TheVariants as session_end;
ghost use Rattle.pool_session.specs.Runs.{HasRun, IsPoolKept, IsRunOf, answer_of};

use crate::outcome::Outcome;
use base_types::{Failed, OutOfMemory};
use erlay_base::{Shelf, Wire};
use node_rules::Config;
use relay_node::Node;
use round_text::{put_pool_line, put_report_lines};
use session::session;
use session_rules::SessionEnd;
use std::alloc::Global;
use tx_pool::Pool;

/// Lets a new node with this pool talk to the peer at the other end of a link, as `session` does, and saves its pool under
/// the name `out` where the session is done. All memory is taken before the save.
pub fn run_session<W: Wire, S: Shelf>(
    alloc: Global,
    wire: &mut W,
    shelf: &mut S,
    config: Config,
    pool: Pool,
    rounds: u32,
    out: &str,
) -> Result<Outcome, OutOfMemory>
    requires linked { W.is_linked wire.old ≡ true }
    requires input { W.has_ended wire.old ≡ false }
    requires unused { IsUnused (W.link wire.old) }
    requires config { IsConfig config }
    ensures run { IfOk result (HasRun rounds config pool (W.link wire.old) (W.link wire.new) (W.has_ended wire.new) (S.told shelf.old) (S.told shelf.new) out.now) }
    ensures linked { W.is_linked wire.new ≡ true }
    ensures input { IfOk result (λ outcome. W.has_ended wire.new ≡ is_input_over config.role (answer_of outcome)) }
    ensures busy { IfOk result (λ outcome. IsBusyIn config.role (answer_of outcome)) }
    ensures fault { IfOk result (λ outcome. HasCauseOfFault (W.faults wire.old) (W.faults wire.new) (answer_of outcome)) }

    // Where memory ran out:
    ensures starved { OnErr result (AreTold (W.link wire.old) (W.link wire.new) (IsReceivedInTime rounds (session_start (opening_state config pool)))) }
    ensures no_fault { OnErr result (W.faults wire.new ≡ W.faults wire.old) }
    ensures no_call { OnErr result (shelf.new ≡ shelf.old) }

    // Of the shelf:
    ensures unsaved { result ≡ Ok Outcome.Unsaved → HasRisen (S.faults shelf.old) (S.faults shelf.new) }
    ensures no_shelf_fault { result ≢ Ok Outcome.Unsaved → S.faults shelf.new ≡ S.faults shelf.old }
    ensures later { S.faults shelf.old ≤ S.faults shelf.new }
    ensures no_save { (end : SessionEnd) → result ≡ Ok (Outcome.Ended end) → shelf.new ≡ shelf.old }
{
    let mut node = Node::new(alloc, config, pool)?;
    run_node(alloc, wire, shelf, &mut node, rounds, out)
}

/// Lets a new node have its session, and saves its pool where that is done.
fn run_node<W: Wire, S: Shelf>(
    alloc: Global,
    wire: &mut W,
    shelf: &mut S,
    node: &mut Node,
    rounds: u32,
    out: &str,
) -> Result<Outcome, OutOfMemory>
    requires linked { W.is_linked wire.old ≡ true }
    requires input { W.has_ended wire.old ≡ false }
    requires unused { IsUnused (W.link wire.old) }
    requires node { IsNew node.old }
    ensures run { IfOk result (IsRunOf rounds node.old node.new (W.link wire.old) (W.link wire.new) (W.has_ended wire.new) (S.told shelf.old) (S.told shelf.new) out.now) }
    ensures linked { W.is_linked wire.new ≡ true }
    ensures input { IfOk result (λ outcome. W.has_ended wire.new ≡ is_input_over node.old.state.config.role (answer_of outcome)) }
    ensures busy { IfOk result (λ outcome. IsBusyIn node.old.state.config.role (answer_of outcome)) }
    ensures fault { IfOk result (λ outcome. HasCauseOfFault (W.faults wire.old) (W.faults wire.new) (answer_of outcome)) }
    ensures starved { OnErr result (AreTold (W.link wire.old) (W.link wire.new) (IsReceivedInTime rounds (session_start (opening_state node.old.state.config node.old.state.pool)))) }
    ensures no_fault { OnErr result (W.faults wire.new ≡ W.faults wire.old) }
    ensures no_call { OnErr result (shelf.new ≡ shelf.old) }
    ensures unsaved { result ≡ Ok Outcome.Unsaved → HasRisen (S.faults shelf.old) (S.faults shelf.new) }
    ensures no_shelf_fault { result ≢ Ok Outcome.Unsaved → S.faults shelf.new ≡ S.faults shelf.old }
    ensures later { S.faults shelf.old ≤ S.faults shelf.new }
    ensures no_save { (end : SessionEnd) → result ≡ Ok (Outcome.Ended end) → shelf.new ≡ shelf.old }
{
    match session(alloc, wire, node, rounds) {
        SessionEnd::Done => keep(alloc, shelf, node, out),
        SessionEnd::OutOfMemory => Err(OutOfMemory),
        end => Ok(Outcome::Ended(end)),
    }
}

/// Saves the pool of a node whose session is done. All memory is taken before the save.
fn keep<S: Shelf>(
    alloc: Global,
    shelf: &mut S,
    node: &Node,
    out: &str,
) -> Result<Outcome, OutOfMemory>
    ensures kept { IfOk result (IsPoolKept out.now node.now.state (S.told shelf.old) (S.told shelf.new)) }
    ensures done { IfOk result (λ outcome. answer_of outcome ≡ session_end.Done) }
    ensures no_call { OnErr result (shelf.new ≡ shelf.old) }
    ensures unsaved { result ≡ Ok Outcome.Unsaved → HasRisen (S.faults shelf.old) (S.faults shelf.new) }
    ensures no_shelf_fault { result ≢ Ok Outcome.Unsaved → S.faults shelf.new ≡ S.faults shelf.old }
    ensures later { S.faults shelf.old ≤ S.faults shelf.new }
    ensures no_end { (end : SessionEnd) → result ≢ Ok (Outcome.Ended end) }
{
    let saved = node.pool().save_text()?;
    let text = session_text(alloc, node)?;
    match shelf.save(out, saved.as_slice()) {
        Ok(()) => Ok(Outcome::Saved(text)),
        Err(Failed) => Ok(Outcome::Unsaved),
    }
}

/// What is told of a node behind its session: the lines of its rounds, and that of its pool.
fn session_text(alloc: Global, node: &Node) -> Result<Vec<u8>, OutOfMemory>
    ensures { IfOk result (λ text. text.items ≡ session_text node.now.state) }
{
    let mut text = Vec::new(alloc);
    put_report_lines(&mut text, None, 1, node.reports())?;
    put_pool_line(&mut text, None, node.pool().len())?;
    Ok(text)
}
