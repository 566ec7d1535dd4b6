//! Messages as lines.

ghost use Rattle.std.specs.Prelude.{◌≡◌, ◌++◌, ◌∷◌, IfOk, OnOk, codes, map};
ghost use Rattle.std.specs.List.{join_with_byte};
ghost use Rattle.std.specs.Fmt.{decimal};
ghost use Rattle.hex.specs.Hex.{encode_lower};
ghost use Rattle.line_rules.specs.Digits.{eight_digits};
ghost use Rattle.wire_rules.specs.Commands as commands;
ghost use Rattle.wire_rules.specs.Shown as shown;
ghost use Rattle.wire_rules.specs.declared.name.Name.TheVariants as name;

use crate::fields::{
    digits, put_bytes, put_each_entry, put_each_short, put_flag, put_i32, put_i64, put_number,
    put_relay, put_salt, put_word,
};
use base_types::{Bytes, OutOfMemory};
use command_names::word_of;
use std::alloc::{AllocError, Global};
use wire_rules::{InvEntry, Message, Name, VersionMsg};

/// The line of a message, without a line end.
pub fn show(alloc: Global, message: &Message) -> Result<Bytes, OutOfMemory>
    ensures { IfOk result (λ line. line ≡ shown.message_text message.now) }
{
    let mut line = Vec::new(alloc);
    put_message(&mut line, message)?;
    Ok(Bytes::from_vec(line))
}

/// Puts the line of a message, without a line end, behind what is there. On want of memory a part of it may stand there.
pub fn show_into(out: &mut Vec<u8>, message: &Message) -> Result<(), OutOfMemory>
    ensures { OnOk result (out.new.items ≡ out.old.items ++ shown.message_text message.now) }
{
    put_message(out, message)?;
    Ok(())
}

#[tactic(auto, unfolding(wire_rules::specs::Shown::words_of))]
fn put_message(out: &mut Vec<u8>, message: &Message) -> Result<(), AllocError>
    ensures { OnOk result (out.new.items ≡ out.old.items ++ shown.message_text message.now) }
{
    match message {
        Message::Version(version) => put_version(out, version),
        Message::Verack => out.extend_from_slice(word_of(Name::Verack)),
        Message::WtxidRelay => out.extend_from_slice(word_of(Name::WtxidRelay)),
        Message::SendTxRcncl { version, salt } => put_announcement(out, *version, *salt),
        Message::ReqRecon { size, q } => put_request(out, *size, *q),
        Message::Sketch(bytes) => put_named_bytes(out, Name::Sketch, bytes.as_slice()),
        Message::ReqSketchExt => out.extend_from_slice(word_of(Name::ReqSketchExt)),
        Message::ReconcilDiff { success, asks } => put_diff(out, *success, asks.as_slice()),
        Message::Inv(entries) => put_entries(out, Name::Inv, entries.as_slice()),
        Message::GetData(entries) => put_entries(out, Name::GetData, entries.as_slice()),
        Message::NotFound(entries) => put_entries(out, Name::NotFound, entries.as_slice()),
        Message::Tx(tx) => put_named_bytes(out, Name::Tx, tx.as_slice()),
        Message::Ping(number) => put_named_number(out, Name::Ping, *number),
        Message::Pong(number) => put_named_number(out, Name::Pong, *number),
        Message::Other { command, payload } => put_other(out, command, payload.as_slice()),
    }
}

fn put_version(out: &mut Vec<u8>, version: &VersionMsg) -> Result<(), AllocError>
    ensures { OnOk result (out.new.items ≡ out.old.items ++ join_with_byte 32 (commands.word_of name.Version ∷ shown.version_words version.now)) }
{
    out.extend_from_slice(word_of(Name::Version))?;
    put_i32(out, &version.version)?;
    put_number(out, version.services)?;
    put_i64(out, &version.time)?;
    put_bytes(out, &version.receiver)?;
    put_bytes(out, &version.sender)?;
    put_number(out, version.nonce)?;
    put_bytes(out, version.agent.as_slice())?;
    put_i32(out, &version.height)?;
    put_relay(out, version.relay)?;
    Ok(())
}

fn put_announcement(out: &mut Vec<u8>, version: u32, salt: u64) -> Result<(), AllocError>
    ensures { OnOk result (out.new.items ≡ out.old.items ++ (commands.word_of name.SendTxRcncl ++ 32 ∷ (decimal version ++ 32 ∷ shown.salt_word salt))) }
{
    out.extend_from_slice(word_of(Name::SendTxRcncl))?;
    put_number(out, version)?;
    put_salt(out, salt)
}

fn put_request(out: &mut Vec<u8>, size: u16, q: u16) -> Result<(), AllocError>
    ensures { OnOk result (out.new.items ≡ out.old.items ++ (commands.word_of name.ReqRecon ++ 32 ∷ (decimal size ++ 32 ∷ decimal q))) }
{
    out.extend_from_slice(word_of(Name::ReqRecon))?;
    put_number(out, size)?;
    put_number(out, q)
}

/// A command, and bytes.
fn put_named_bytes(out: &mut Vec<u8>, name: Name, bytes: &[u8]) -> Result<(), AllocError>
    ensures { OnOk result (out.new.items ≡ out.old.items ++ (commands.word_of name ++ 32 ∷ shown.bytes_word bytes.now)) }
{
    out.extend_from_slice(word_of(name))?;
    put_bytes(out, bytes)
}

/// A command, and a number.
fn put_named_number(out: &mut Vec<u8>, name: Name, number: u64) -> Result<(), AllocError>
    ensures { OnOk result (out.new.items ≡ out.old.items ++ (commands.word_of name ++ 32 ∷ decimal number)) }
{
    out.extend_from_slice(word_of(name))?;
    put_number(out, number)
}

fn put_diff(out: &mut Vec<u8>, success: bool, asks: &[u32]) -> Result<(), AllocError>
    ensures { OnOk result (out.new.items ≡ out.old.items ++ join_with_byte 32 (commands.word_of name.ReconcilDiff ∷ shown.flag_word success ∷ map eight_digits asks.now)) }
{
    out.extend_from_slice(word_of(Name::ReconcilDiff))?;
    put_flag(out, success)?;
    put_each_short(out, asks)?;
    Ok(())
}

/// A command, and entries.
fn put_entries(out: &mut Vec<u8>, name: Name, entries: &[InvEntry]) -> Result<(), AllocError>
    ensures { OnOk result (out.new.items ≡ out.old.items ++ join_with_byte 32 (commands.word_of name ∷ map shown.entry_word entries.now)) }
{
    out.extend_from_slice(word_of(name))?;
    put_each_entry(out, entries)?;
    Ok(())
}

/// A command that isn't known, as digits, and bytes.
fn put_other(out: &mut Vec<u8>, command: &[u8; 12], payload: &[u8]) -> Result<(), AllocError>
    ensures { OnOk result (out.new.items ≡ out.old.items ++ (codes "other" ++ 32 ∷ (encode_lower command.now ++ 32 ∷ shown.bytes_word payload.now))) }
{
    out.extend_from_slice(b"other")?;
    put_word(out, &digits::<12, 24>(command))?;
    put_bytes(out, payload)
}
