//! Messages as frames.

ghost use Rattle.std.specs.Prelude.{◌≡◌, ◌++◌, IsTrue, IfOk, Ok};
ghost use Rattle.std.specs.Int.{w16, w32, w64, to_le_bytes};
ghost use Rattle.wire_rules.specs.Layout as layout;
ghost use Rattle.wire_rules.specs.Limits.{IsFrame, IsMessage, is_within_limits};
ghost use Rattle.wire_rules.specs.Reading.{message_of};

use crate::pieces::{put_count, put_counted, put_entries, put_optional, put_shorts};
use base_types::{Bytes, OutOfMemory};
use command_names::command_of;
use std::alloc::{AllocError, Global};
use wire_rules::{Frame, InvEntry, Message, Name, VersionMsg};

/// The frame of a message. Memory is taken once, for the payload.
pub fn encode(alloc: Global, message: &Message) -> Result<Frame, OutOfMemory>
    requires { IsTrue (is_within_limits message.now) }
    ensures frame { IfOk result (λ f. f ≡ layout.frame_of message.now) }

    // A message that may be sent has a frame that may be sent, which says the message.
    ensures sound { IfOk result (λ f. IsMessage message.now → IsFrame f) }
    ensures said { IfOk result (λ f. IsMessage message.now → message_of f ≡ Ok message.now) }
{
    let payload = payload_of(alloc, message)?;
    Ok(Frame {
        command: command_of_message(message),
        payload: Bytes::from_vec(payload),
    })
}

/// The command field of a message.
#[tactic(auto, unfolding(wire_rules::specs::Layout::frame_of))]
fn command_of_message(message: &Message) -> [u8; 12]
    ensures { result ≡ (layout.frame_of message.now).command }
{
    match message {
        Message::Version(_) => command_of(Name::Version),
        Message::Verack => command_of(Name::Verack),
        Message::WtxidRelay => command_of(Name::WtxidRelay),
        Message::SendTxRcncl { .. } => command_of(Name::SendTxRcncl),
        Message::ReqRecon { .. } => command_of(Name::ReqRecon),
        Message::Sketch(_) => command_of(Name::Sketch),
        Message::ReqSketchExt => command_of(Name::ReqSketchExt),
        Message::ReconcilDiff { .. } => command_of(Name::ReconcilDiff),
        Message::Inv(_) => command_of(Name::Inv),
        Message::GetData(_) => command_of(Name::GetData),
        Message::NotFound(_) => command_of(Name::NotFound),
        Message::Tx(_) => command_of(Name::Tx),
        Message::Ping(_) => command_of(Name::Ping),
        Message::Pong(_) => command_of(Name::Pong),
        Message::Other { command, .. } => *command,
    }
}

/// The payload of a message.
#[tactic(auto, unfolding(wire_rules::specs::Layout::frame_of))]
fn payload_of(alloc: Global, message: &Message) -> Result<Vec<u8>, AllocError>
    ensures { IfOk result (λ p. p.items ≡ layout.payload_of message.now) }
{
    match message {
        Message::Version(version) => version_payload(alloc, version),
        Message::Verack | Message::WtxidRelay | Message::ReqSketchExt => Ok(Vec::new(alloc)),
        Message::SendTxRcncl { version, salt } => salt_payload(alloc, *version, *salt),
        Message::ReqRecon { size, q } => request_payload(alloc, *size, *q),
        Message::Sketch(bytes) => counted(alloc, bytes.as_slice()),
        Message::ReconcilDiff { success, asks } => diff_payload(alloc, *success, asks.as_slice()),
        Message::Inv(entries) | Message::GetData(entries) | Message::NotFound(entries) => {
            inventory(alloc, entries.as_slice())
        }
        Message::Tx(tx) => tx.as_slice().to_vec(alloc),
        Message::Ping(number) | Message::Pong(number) => number.to_le_bytes().to_vec(alloc),
        Message::Other { payload, .. } => payload.as_slice().to_vec(alloc),
    }
}

/// Bytes of a `version` payload besides the agent's.
const VERSION_LEN: usize = 88;

fn version_payload(alloc: Global, version: &VersionMsg) -> Result<Vec<u8>, AllocError>
    ensures { IfOk result (λ p. p.items ≡ layout.version_payload version.now) }
{
    let agent = version.agent.as_slice();
    let mut out = Vec::with_capacity(alloc, agent.len().saturating_add(VERSION_LEN))?;
    out.extend_from_slice(&version.version.to_le_bytes())?;
    out.extend_from_slice(&version.services.to_le_bytes())?;
    out.extend_from_slice(&version.time.to_le_bytes())?;
    out.extend_from_slice(&version.receiver)?;
    out.extend_from_slice(&version.sender)?;
    out.extend_from_slice(&version.nonce.to_le_bytes())?;
    put_counted(&mut out, agent)?;
    out.extend_from_slice(&version.height.to_le_bytes())?;
    put_optional(&mut out, version.relay)?;
    Ok(out)
}

fn salt_payload(alloc: Global, version: u32, salt: u64) -> Result<Vec<u8>, AllocError>
    ensures { IfOk result (λ p. p.items ≡ to_le_bytes w32 version ++ to_le_bytes w64 salt) }
{
    let mut out = Vec::with_capacity(alloc, 12)?;
    out.extend_from_slice(&version.to_le_bytes())?;
    out.extend_from_slice(&salt.to_le_bytes())?;
    Ok(out)
}

fn request_payload(alloc: Global, size: u16, q: u16) -> Result<Vec<u8>, AllocError>
    ensures { IfOk result (λ p. p.items ≡ to_le_bytes w16 size ++ to_le_bytes w16 q) }
{
    let mut out = Vec::with_capacity(alloc, 4)?;
    out.extend_from_slice(&size.to_le_bytes())?;
    out.extend_from_slice(&q.to_le_bytes())?;
    Ok(out)
}

/// Bytes behind their count.
fn counted(alloc: Global, bytes: &[u8]) -> Result<Vec<u8>, AllocError>
    ensures { IfOk result (λ p. p.items ≡ layout.counted_bytes bytes.now) }
{
    let mut out = Vec::with_capacity(alloc, bytes.len().saturating_add(3))?;
    put_counted(&mut out, bytes)?;
    Ok(out)
}

/// The byte of a flag.
fn flag_byte(flag: bool) -> u8
    ensures { result ≡ layout.flag_byte flag }
{
    if flag { 1 } else { 0 }
}

fn diff_payload(alloc: Global, success: bool, asks: &[u32]) -> Result<Vec<u8>, AllocError>
    ensures { IfOk result (λ p. p.items ≡ layout.diff_payload success asks.now) }
{
    let mut out = Vec::with_capacity(alloc, asks.len().saturating_mul(4).saturating_add(4))?;
    out.push(flag_byte(success))?;
    put_count(&mut out, asks.len())?;
    put_shorts(&mut out, asks)?;
    Ok(out)
}

/// Entries behind their count.
fn inventory(alloc: Global, entries: &[InvEntry]) -> Result<Vec<u8>, AllocError>
    ensures { IfOk result (λ p. p.items ≡ layout.inventory entries.now) }
{
    let mut out = Vec::with_capacity(alloc, entries.len().saturating_mul(36).saturating_add(3))?;
    put_count(&mut out, entries.len())?;
    put_entries(&mut out, entries)?;
    Ok(out)
}
