//! The frames that wait to be sent.

ghost use Rattle.std.specs.Prelude.{◌≡◌, ◌≤◌, [], ◌∷◌, length, take, drop, IsTrue, OnOk, OnErr};
ghost use Rattle.std.specs.List.{AllByRecursion};
ghost use Rattle.id_rules.specs.Bytes.{is_tx_length};
ghost use Rattle.wire_rules.specs.Limits.{IsMessage};
ghost use Rattle.wire_rules.specs.declared.message.Message.TheVariants as message;
ghost use Rattle.outbox.specs.Waiting.{with_messages};

use base_types::OutOfMemory;
use command_names::command_of;
use p2p_frame::{write_frame, write_lent_frame};
use recon_messages::encode;
use std::alloc::Global;
use std::marker::Model;
use wire_rules::{FrameRef, Message, Name};

/// The bytes of a network's frames that wait to be sent. A contract sees the network's magic and the bytes.
#[derive(Drop)]
pub struct Outbox {
    magic: [u8; 4],
    bytes: Vec<u8>,
    /// How many of the bytes were sent.
    sent: usize,
}

impl Model for Outbox {
    ghost use Rattle.std.specs.Prelude.{◌≤◌, drop, vec_len};
    ghost use Rattle.outbox.specs.Waiting.{Waiting};

    ghost Value = { Waiting };

    ghost view = { λ o. record { magic = o.magic; bytes = drop o.sent o.bytes.items } };

    ghost invariant = { λ o. o.sent ≤ vec_len o.bytes };
}

impl Outbox {
    /// No bytes of a network. It takes no memory.
    pub fn new(alloc: Global, magic: [u8; 4]) -> Outbox
        ensures { result ≡ record { magic = magic; bytes = [] } }
    {
        Outbox {
            magic,
            bytes: Vec::new(alloc),
            sent: 0,
        }
    }

    /// The bytes that wait, in order.
    pub fn as_slice(&self) -> &[u8]
        ensures { result.now ≡ self.now.bytes }
    {
        self.bytes.as_slice().split_at(self.sent).1
    }

    /// How many bytes wait.
    pub fn len(&self) -> usize
        ensures { result ≡ length self.now.bytes }
    {
        self.bytes.len() - self.sent
    }

    /// The first `n` bytes are sent. The sent bytes are let go of once they are no fewer than those behind them, so that a
    /// byte is moved at most once for each byte that was sent.
    pub fn drain(&mut self, n: usize)
        requires { n ≤ length self.old.bytes }
        ensures { self.new ≡ record self.old { bytes = drop n self.old.bytes } }
    {
        self.sent += n;
        if self.bytes.len() - self.sent <= self.sent {
            self.bytes.drain(..self.sent);
            self.sent = 0;
        }
    }

    /// Puts the frame of a message behind what waits. Where memory runs out, nothing changes.
    pub fn push(&mut self, message: &Message) -> Result<(), OutOfMemory>
        requires { IsMessage message.now }
        ensures ok { OnOk result (self.new ≡ with_messages self.old (message.now ∷ [])) }
        ensures err { OnErr result (self.new ≡ self.old) }
    {
        let frame = encode(*self.bytes.allocator(), message)?;
        write_frame(self.magic, &frame, &mut self.bytes)
    }

    /// Puts the frames of messages behind what waits, in order. Where memory runs out, nothing changes.
    pub fn push_all(&mut self, messages: &[Message]) -> Result<(), OutOfMemory>
        requires { AllByRecursion IsMessage messages.now }
        ensures ok { OnOk result (self.new ≡ with_messages self.old messages.now) }
        ensures err { OnErr result (self.new ≡ self.old) }
    {
        let len = self.len();
        for message in messages {
            let Ok(()) = self.push(message) else {
                self.truncate(len);
                return Err(OutOfMemory);
            };
        }
        Ok(())
    }

    /// Puts the frame of a transaction, 1 to `TX_LIMIT` bytes, behind what waits: the bytes are copied once. Where memory
    /// runs out, nothing changes.
    #[tactic(auto, unfolding(wire_rules::specs::Layout::frame_of))]
    pub fn push_tx(&mut self, tx: &[u8]) -> Result<(), OutOfMemory>
        requires { IsTrue (is_tx_length (length tx.now)) }
        ensures ok { OnOk result (self.new ≡ with_messages self.old (message.Tx tx.now ∷ [])) }
        ensures err { OnErr result (self.new ≡ self.old) }
    {
        let frame = FrameRef {
            command: command_of(Name::Tx),
            payload: tx,
        };
        write_lent_frame(self.magic, &frame, &mut self.bytes)
    }

    /// Takes back what was put behind the first `len` bytes.
    pub fn truncate(&mut self, len: usize)
        requires { len ≤ length self.old.bytes }
        ensures { self.new ≡ record self.old { bytes = take len self.old.bytes } }
    {
        self.bytes.truncate(self.sent + len);
    }
}
