//! Messages.

ghost use Rattle.std.specs.Prelude.{◌≡◌};

use base_types::{Bytes, Elems, Hash32, Shorts};
use std::marker::Model;

/// What a node says of itself. The addresses and the services have no meaning here.
#[derive(Debug, Drop)]
pub struct VersionMsg {
    pub version: i32,
    pub services: u64,
    pub time: i64,
    pub receiver: [u8; 26],
    pub sender: [u8; 26],
    pub nonce: u64,
    pub agent: Bytes,
    pub height: i32,
    /// May be absent, which counts as 1. 0 asks for no transactions.
    pub relay: Option<u8>,
}

/// An entry of an inventory: what kind of object an id is of. 5 is a transaction named by its wtxid.
#[derive(Clone, Copy, Debug, PartialEq, Eq)]
pub struct InvEntry {
    pub kind: u32,
    pub id: Hash32,
}

/// Entries of an inventory, in order.
pub type Invs = Elems<InvEntry>;

/// A message.
#[derive(Debug, Drop)]
pub enum Message {
    /// Who the node is.
    Version(VersionMsg),
    /// The handshake of this side is over.
    Verack,
    /// Transactions are announced by wtxid.
    WtxidRelay,
    /// Transactions are reconciled, with this salt.
    SendTxRcncl { version: u32, salt: u64 },
    /// Asks for a sketch. The set has this size, and the coefficient is q.
    ReqRecon { size: u16, q: u16 },
    /// A sketch, or the part that extends it.
    Sketch(Bytes),
    /// Asks for the extension of the sketch.
    ReqSketchExt,
    /// Whether the difference was found, and the short ids of what is missing.
    ReconcilDiff { success: bool, asks: Shorts },
    /// Announces transactions.
    Inv(Invs),
    /// Asks for transactions.
    GetData(Invs),
    /// What was asked for and can't be sent.
    NotFound(Invs),
    /// A transaction.
    Tx(Bytes),
    /// Asks for a pong of this number.
    Ping(u64),
    /// Answers a ping.
    Pong(u64),
    /// A message of another command.
    Other { command: [u8; 12], payload: Bytes },
}

/// Messages, in order. A contract sees the list of them.
#[derive(Debug, Drop)]
pub struct Outs {
    items: Vec<Message>,
}

impl Model for Outs {
    ghost use Rattle.std.specs.Prelude.{List};
    ghost use Rattle.wire_rules.specs.declared.message.Message.{Message};

    ghost Value = { List Message };

    ghost view = { λ o. o.items.items };
}

impl Outs {
    /// The messages of `items`, in order. Takes no memory beyond it.
    pub fn from_vec(items: Vec<Message>) -> Self
        ensures { result ≡ items.items }
    {
        Outs { items }
    }

    /// The messages, in order.
    pub fn as_slice(&self) -> &[Message]
        ensures { result.now ≡ self.now }
    {
        self.items.as_slice()
    }
}
