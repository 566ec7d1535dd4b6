//! The steps of a node in a session.

ghost use Rattle.std.specs.Prelude.{◌≡◌, ◌≢◌, ◌==◌, ◌&&◌, ℕ, Bool, IfErr};
ghost use Rattle.std.specs.declared.option.Option.{Option};
ghost use Rattle.link_rules.specs.Links.{Link};
ghost use Rattle.node_rules.specs.Stages.{is_idle};
ghost use Rattle.session_rules.specs.Session.{Session};
ghost use Rattle.session_rules.specs.declared.session_end.SessionEnd.TheVariants as session_end;
ghost use Rattle.session.specs.Standing.{IsBeforePiece, IsRoundBegun, IsTurn, end_of_input};

use crate::progress::Progress;
use base_types::OutOfMemory;
use relay_node::{Node, Stop};
use session_rules::SessionEnd;
use wire_rules::Phase;

/// Whether a node is between rounds.
#[tactic(auto, unfolding(node_rules::specs::Stages::is_idle))]
pub(crate) fn is_idle(node: &Node) -> bool
    ensures { result ≡ is_idle node.now.state.machine.phase }
{
    matches!(node.phase(), Phase::Idle)
}

/// Whether an opener is done: it is between rounds, and none is left.
pub(crate) fn is_finished(node: &Node, progress: &Progress) -> bool
    ensures { result ≡ (progress.now.opens && ((progress.now.left == 0) && is_idle node.now.state.machine.phase)) }
{
    progress.opens && progress.left == 0 && is_idle(node)
}

/// Takes a piece, and begins a round where one of `left` may begin.
pub(crate) fn take(node: &mut Node, piece: &[u8], left: &mut u32) -> Result<(), SessionEnd>
    ensures turn { (opens : Bool) (rounds : ℕ) (start : Session) (before told : Option Link) (ended : Bool) (received : ℕ)
        → IsBeforePiece opens rounds start before told ended node.old left.old received piece.now
        → IsTurn opens rounds start before told ended node.new left.new received result }
    ensures fault { IfErr result (λ answer. answer ≢ session_end.LinkFault) }
{
    match node.take(piece) {
        Ok(()) => match begin_round(node, left) {
            Ok(()) => Ok(()),
            Err(OutOfMemory) => Err(SessionEnd::OutOfMemory),
        },
        Err(Stop::Ended(end)) => Err(SessionEnd::Refused(end)),
        Err(Stop::OutOfMemory) => Err(SessionEnd::OutOfMemory),
    }
}

/// Begins a round, where one is left and the node is an opener between rounds. Where memory runs out, nothing changes.
fn begin_round(node: &mut Node, left: &mut u32) -> Result<(), OutOfMemory>
    ensures { IsRoundBegun node.old left.old node.new left.new result }
{
    if *left > 0 && node.begin_round()? {
        *left -= 1;
    }
    Ok(())
}

/// What the end of the input means for a node that isn't an opener at its end.
pub(crate) fn end_of_input(node: &Node, opens: bool) -> SessionEnd
    ensures { result ≡ end_of_input opens node.now.state }
{
    if !opens && is_idle(node) && node.held() == 0 && node.open_wants() == 0 {
        SessionEnd::Done
    } else {
        SessionEnd::Truncated(node.phase())
    }
}
