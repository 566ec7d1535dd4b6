//! Where a node stands with its peer's stream.

ghost use Rattle.std.specs.Prelude.{◌+◌, ◌<◌, length};
ghost use Rattle.wire_rules.specs.declared.limits.TheConstants.{HEADER_LEN, PAYLOAD_LIMIT};
ghost use Rattle.relay_node.specs.Answers.{IsTaken};
ghost use Rattle.relay_node.specs.Views.{IsLinked, inbox_at, view_at};

use crate::frames::receive;
use conversation::{Conversation, Stop};
use node_rules::End;
use p2p_frame::Feeder;
use std::alloc::Global;

/// Where a node stands with its peer's stream. A node that has stopped holds none of its bytes.
#[derive(Drop)]
pub(crate) enum Link {
    /// It takes what comes.
    Open(Feeder),
    /// It has refused something. What came behind this offset was dropped.
    Ended { end: End, offset: u64 },
    /// Memory was refused.
    OutOfMemory,
}

impl Link {
    /// Takes a piece of the stream for a conversation.
    pub(crate) fn take(
        &mut self,
        alloc: Global,
        conversation: &mut Conversation,
        bytes: &[u8],
    ) -> Result<(), Stop>
        requires { IsLinked conversation.old self.old }
        ensures linked { IsLinked conversation.new self.new }
        ensures taken { IsTaken (view_at conversation.old self.old) bytes.now (view_at conversation.new self.new) result }
        ensures short { length (inbox_at self.new).unread < HEADER_LEN + PAYLOAD_LIMIT }
    {
        match self {
            Link::Open(feeder) => match receive(alloc, conversation, feeder, bytes) {
                Ok(()) => Ok(()),
                Err(Stop::Ended(end)) => {
                    let offset = feeder.place();
                    *self = Link::Ended { end, offset };
                    Err(Stop::Ended(end))
                }
                Err(Stop::OutOfMemory) => {
                    conversation.clear_wants();
                    *self = Link::OutOfMemory;
                    Err(Stop::OutOfMemory)
                }
            },
            Link::Ended { end, .. } => Err(Stop::Ended(*end)),
            Link::OutOfMemory => Err(Stop::OutOfMemory),
        }
    }
}
