//! The frames that a node has received.

ghost use Rattle.std.specs.Prelude.{◌≡◌, ◌++◌, None, length, IsTrue};
ghost use Rattle.id_rules.specs.Bytes.{are_bytes, is_tx_length};
ghost use Rattle.wire_rules.specs.Lent.{lent_frame};
ghost use Rattle.wire_rules.specs.Limits.{IsFrame};
ghost use Rattle.node_rules.specs.Invariant.{IsNode};
ghost use Rattle.relay_node.specs.Handling.{AreHandled, IsFrameHandled, IsFrontHandled};
ghost use Rattle.relay_node.specs.Views.{IsOpen, with_bytes};

use command_names::name_at;
use conversation::{Conversation, Stop};
use id_rules::TX_LIMIT;
use node_rules::End;
use p2p_frame::Feeder;
use recon_messages::{DecodeFault, decode_ref};
use std::alloc::Global;
use wire_rules::{FrameRef, Name};

/// Takes bytes of the stream, and handles every frame that then stands whole, up to the first that the node refuses.
pub(crate) fn receive(
    alloc: Global,
    conversation: &mut Conversation,
    feeder: &mut Feeder,
    bytes: &[u8],
) -> Result<(), Stop>
    requires { IsOpen conversation.old.state feeder.old }
    ensures { AreHandled conversation.old (with_bytes feeder.old bytes.now) conversation.new feeder.new result }
{
    feeder.push(bytes)?;
    handle_all(alloc, conversation, feeder)
}

/// Handles every frame that stands whole, up to the first that the node refuses.
fn handle_all(
    alloc: Global,
    conversation: &mut Conversation,
    feeder: &mut Feeder,
) -> Result<(), Stop>
    requires { IsOpen conversation.old.state feeder.old }
    ensures { AreHandled conversation.old feeder.old conversation.new feeder.new result }
{
    while handle_front(alloc, conversation, feeder)? {}
    Ok(())
}

/// Handles the frame in front, and passes it. It tells whether one stood there whole.
fn handle_front(
    alloc: Global,
    conversation: &mut Conversation,
    feeder: &mut Feeder,
) -> Result<bool, Stop>
    requires { IsOpen conversation.old.state feeder.old }
    ensures { IsFrontHandled conversation.old feeder.old conversation.new feeder.new result }
{
    let handled = match feeder.front() {
        Ok(Some(frame)) => handle_frame(alloc, conversation, &frame),
        Ok(None) => return Ok(false),
        Err(fault) => return Err(Stop::Ended(End::Frame(fault))),
    };
    feeder.skip();
    handled?;
    Ok(true)
}

/// Handles a frame. A transaction is lent, and the payload of an unknown command isn't copied.
fn handle_frame(
    alloc: Global,
    conversation: &mut Conversation,
    frame: &FrameRef<'_>,
) -> Result<(), Stop>
    requires node { IsNode conversation.old.state }
    requires unended { conversation.old.state.ended ≡ None }
    requires frame { IsFrame (lent_frame frame.now) }
    ensures { IsFrameHandled (lent_frame frame.now) conversation.old conversation.new result }
{
    match name_at(&frame.command) {
        None => Ok(()),
        Some(Name::Tx) if is_tx(frame.payload) => conversation.take_tx(frame.payload),
        Some(_) => match decode_ref(alloc, frame) {
            Ok(message) => conversation.take(message),
            Err(DecodeFault::Payload(fault)) => Err(Stop::Ended(End::Payload(fault))),
            Err(DecodeFault::OutOfMemory) => Err(Stop::OutOfMemory),
        },
    }
}

/// Whether bytes may be a transaction.
pub(crate) fn is_tx(tx: &[u8]) -> bool
    ensures told { result ≡ is_tx_length (length tx.now) }
    ensures bytes { IsTrue (are_bytes tx.now) }
{
    0 < tx.len() && tx.len() <= TX_LIMIT
}
