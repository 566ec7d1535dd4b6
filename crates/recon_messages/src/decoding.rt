//! Frames as messages.

ghost use Rattle.std.specs.Prelude.{◌≡◌, IfOk};
ghost use Rattle.wire_rules.specs.Lent.{lent_frame};
ghost use Rattle.wire_rules.specs.Limits.{IsFrame};
ghost use Rattle.wire_rules.specs.Reading as reading;
ghost use Rattle.wire_laws.specs.Readings.{IsFrameOf};
ghost use Rattle.recon_messages.specs.Says.{IsDecoded, IsPayload};

use crate::fault::{DecodeFault, FieldStop};
use crate::reader::Reader;
use base_types::Bytes;
use command_names::name_at;
use std::alloc::Global;
use wire_rules::{
    AGENT_LIMIT, Frame, FrameRef, LIST_LIMIT, Message, Name, PayloadFault, PayloadKind, VersionMsg,
};

/// The message of a frame.
pub fn decode_frame(alloc: Global, frame: &Frame) -> Result<Message, DecodeFault>
    ensures said { IsDecoded (reading.message_of frame.now) result }
    ensures sent { IfOk result (λ m. IsFrame frame.now → IsFrameOf frame.now m) }
{
    message_of(alloc, &frame.command, frame.payload.as_slice())
}

/// The message of a frame whose payload is lent. The payload's bytes are copied once, where the message keeps them.
pub fn decode_ref(alloc: Global, frame: &FrameRef<'_>) -> Result<Message, DecodeFault>
    ensures said { IsDecoded (reading.message_of (lent_frame frame.now)) result }
    ensures sent { IfOk result (λ m. IsFrame (lent_frame frame.now) → IsFrameOf (lent_frame frame.now) m) }
{
    message_of(alloc, &frame.command, frame.payload)
}

/// What a command and a payload say.
fn message_of(alloc: Global, command: &[u8; 12], payload: &[u8]) -> Result<Message, DecodeFault>
    ensures { IsDecoded (reading.message_of (record { command = command.now; payload = payload.now })) result }
{
    let Some(name) = name_at(command) else {
        return Ok(Message::Other {
            command: *command,
            payload: Bytes::from_vec(payload.to_vec(alloc)?),
        });
    };
    match message_in(alloc, name, payload) {
        Ok(message) => Ok(message),
        Err(FieldStop::Fault { at, kind }) => Err(DecodeFault::Payload(PayloadFault {
            command: name,
            at,
            kind,
        })),
        Err(FieldStop::OutOfMemory) => Err(DecodeFault::OutOfMemory),
    }
}

/// What the payload of a command says.
#[tactic(auto, unfolding(wire_rules::specs::Reading::message_in))]
fn message_in(alloc: Global, name: Name, payload: &[u8]) -> Result<Message, FieldStop>
    ensures { IsPayload (reading.message_in name payload.now) result }
{
    match name {
        Name::Version => version_in(alloc, payload),
        Name::Verack => Reader::of(payload).at_end(Message::Verack),
        Name::WtxidRelay => Reader::of(payload).at_end(Message::WtxidRelay),
        Name::SendTxRcncl => salt_in(payload),
        Name::ReqRecon => request_in(payload),
        Name::Sketch => sketch_in(alloc, payload),
        Name::ReqSketchExt => Reader::of(payload).at_end(Message::ReqSketchExt),
        Name::ReconcilDiff => diff_in(alloc, payload),
        Name::Inv => inv_in(alloc, payload),
        Name::GetData => getdata_in(alloc, payload),
        Name::NotFound => notfound_in(alloc, payload),
        Name::Tx => tx_in(alloc, payload),
        Name::Ping => ping_in(payload),
        Name::Pong => pong_in(payload),
    }
}

#[tactic(auto, unfolding(wire_rules::specs::Reading::version_in))]
fn version_in(alloc: Global, payload: &[u8]) -> Result<Message, FieldStop>
    ensures { IsPayload (reading.version_in payload.now) result }
{
    let mut reader = Reader::of(payload);
    let version = reader.read_i32()?;
    let services = reader.read_u64()?;
    let time = reader.read_i64()?;
    let receiver = reader.array()?;
    let sender = reader.array()?;
    let nonce = reader.read_u64()?;
    let agent = reader.counted_bytes(alloc, AGENT_LIMIT)?;
    let height = reader.read_i32()?;
    let relay = reader.optional()?;
    reader.at_end(Message::Version(VersionMsg {
        version,
        services,
        time,
        receiver,
        sender,
        nonce,
        agent,
        height,
        relay,
    }))
}

#[tactic(auto, unfolding(wire_rules::specs::Reading::salt_in))]
fn salt_in(payload: &[u8]) -> Result<Message, FieldStop>
    ensures { IsPayload (reading.salt_in payload.now) result }
{
    let mut reader = Reader::of(payload);
    let version = reader.read_u32()?;
    let salt = reader.read_u64()?;
    reader.at_end(Message::SendTxRcncl { version, salt })
}

#[tactic(auto, unfolding(wire_rules::specs::Reading::request_in))]
fn request_in(payload: &[u8]) -> Result<Message, FieldStop>
    ensures { IsPayload (reading.request_in payload.now) result }
{
    let mut reader = Reader::of(payload);
    let size = reader.read_u16()?;
    let q = reader.read_u16()?;
    reader.at_end(Message::ReqRecon { size, q })
}

#[tactic(auto, unfolding(wire_rules::specs::Reading::sketch_in))]
fn sketch_in(alloc: Global, payload: &[u8]) -> Result<Message, FieldStop>
    ensures { IsPayload (reading.sketch_in payload.now) result }
{
    let mut reader = Reader::of(payload);
    let bytes = reader.counted_bytes(alloc, LIST_LIMIT)?;
    reader.at_end(Message::Sketch(bytes))
}

#[tactic(auto, unfolding(wire_rules::specs::Reading::diff_in))]
fn diff_in(alloc: Global, payload: &[u8]) -> Result<Message, FieldStop>
    ensures { IsPayload (reading.diff_in payload.now) result }
{
    let mut reader = Reader::of(payload);
    let success = reader.flag()?;
    let asks = reader.shorts(alloc)?;
    reader.at_end(Message::ReconcilDiff { success, asks })
}

#[tactic(auto, unfolding(wire_rules::specs::Reading::inventory_in))]
fn inv_in(alloc: Global, payload: &[u8]) -> Result<Message, FieldStop>
    ensures { IsPayload (reading.inventory_in Message.Inv payload.now) result }
{
    let mut reader = Reader::of(payload);
    let entries = reader.entries(alloc)?;
    reader.at_end(Message::Inv(entries))
}

#[tactic(auto, unfolding(wire_rules::specs::Reading::inventory_in))]
fn getdata_in(alloc: Global, payload: &[u8]) -> Result<Message, FieldStop>
    ensures { IsPayload (reading.inventory_in Message.GetData payload.now) result }
{
    let mut reader = Reader::of(payload);
    let entries = reader.entries(alloc)?;
    reader.at_end(Message::GetData(entries))
}

#[tactic(auto, unfolding(wire_rules::specs::Reading::inventory_in))]
fn notfound_in(alloc: Global, payload: &[u8]) -> Result<Message, FieldStop>
    ensures { IsPayload (reading.inventory_in Message.NotFound payload.now) result }
{
    let mut reader = Reader::of(payload);
    let entries = reader.entries(alloc)?;
    reader.at_end(Message::NotFound(entries))
}

fn tx_in(alloc: Global, payload: &[u8]) -> Result<Message, FieldStop>
    ensures { IsPayload (reading.tx_in payload.now) result }
{
    if payload.is_empty() {
        return Err(FieldStop::Fault {
            at: 0,
            kind: PayloadKind::Short,
        });
    }
    Ok(Message::Tx(Bytes::from_vec(payload.to_vec(alloc)?)))
}

#[tactic(auto, unfolding(wire_rules::specs::Reading::number_in))]
fn ping_in(payload: &[u8]) -> Result<Message, FieldStop>
    ensures { IsPayload (reading.number_in Message.Ping payload.now) result }
{
    let mut reader = Reader::of(payload);
    let number = reader.read_u64()?;
    reader.at_end(Message::Ping(number))
}

#[tactic(auto, unfolding(wire_rules::specs::Reading::number_in))]
fn pong_in(payload: &[u8]) -> Result<Message, FieldStop>
    ensures { IsPayload (reading.number_in Message.Pong payload.now) result }
{
    let mut reader = Reader::of(payload);
    let number = reader.read_u64()?;
    reader.at_end(Message::Pong(number))
}
