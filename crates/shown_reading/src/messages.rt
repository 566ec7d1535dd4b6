//! The message that words may stand for. Words behind those of the message are not looked at here.

ghost use Rattle.std.specs.Prelude.{◌≡◌, ◌∷◌, codes};
ghost use Rattle.wire_rules.specs.Commands as commands;
ghost use Rattle.wire_rules.specs.Limits.{is_version_in_range};
ghost use Rattle.wire_rules.specs.Shown.{version_words, words_of};
ghost use Rattle.wire_rules.specs.declared.name.Name.TheVariants as name;
ghost use Rattle.shown_reading.specs.Reads.{IsOnly, is_typed};

use crate::fault::ShownFault;
use crate::fields::{
    address_of, array_of, bytes_of, flag_of, i32_of, number_of, relay_of, salt_of, signed_of,
    u16_of, u32_of,
};
use crate::lists::{entries_in, shorts_in};
use crate::words::Words;
use command_names::name_of_word;
use std::alloc::Global;
use wire_rules::{Message, Name, VersionMsg};

/// The message that the words of a line may stand for.
pub(crate) fn message_in(alloc: Global, mut words: Words<'_>) -> Result<Message, ShownFault>
    ensures { IsOnly is_typed (λ m. words.entry ≡ words_of m) result }
{
    let command = words.word();
    if command == b"other".as_slice() {
        return other_message(alloc, words);
    }
    match name_of_word(command) {
        Some(name) => named_message(alloc, name, words),
        None => Err(ShownFault::Form),
    }
}

/// The message of a command that is known, by the words behind it.
fn named_message(alloc: Global, name: Name, mut words: Words<'_>) -> Result<Message, ShownFault>
    ensures { IsOnly is_typed (λ m. commands.word_of name ∷ words.entry ≡ words_of m) result }
{
    match name {
        Name::Version => Ok(Message::Version(version_in(alloc, words)?)),
        Name::Verack => Ok(Message::Verack),
        Name::WtxidRelay => Ok(Message::WtxidRelay),
        Name::SendTxRcncl => announcement(words),
        Name::ReqRecon => request(words),
        Name::Sketch => Ok(Message::Sketch(bytes_of(alloc, words.word())?)),
        Name::ReqSketchExt => Ok(Message::ReqSketchExt),
        Name::ReconcilDiff => diff(alloc, words),
        Name::Inv => Ok(Message::Inv(entries_in(alloc, words)?)),
        Name::GetData => Ok(Message::GetData(entries_in(alloc, words)?)),
        Name::NotFound => Ok(Message::NotFound(entries_in(alloc, words)?)),
        Name::Tx => Ok(Message::Tx(bytes_of(alloc, words.word())?)),
        Name::Ping => Ok(Message::Ping(number_of(words.word())?)),
        Name::Pong => Ok(Message::Pong(number_of(words.word())?)),
    }
}

/// What a node says of itself.
fn version_in(alloc: Global, mut words: Words<'_>) -> Result<VersionMsg, ShownFault>
    ensures { IsOnly is_version_in_range (λ v. words.entry ≡ version_words v) result }
{
    let version = i32_of(words.word())?;
    let services = number_of(words.word())?;
    let time = signed_of(words.word())?;
    let receiver = address_of(words.word())?;
    let sender = address_of(words.word())?;
    let nonce = number_of(words.word())?;
    let agent = bytes_of(alloc, words.word())?;
    let height = i32_of(words.word())?;
    let relay = relay_of(words.word())?;
    Ok(VersionMsg {
        version,
        services,
        time,
        receiver,
        sender,
        nonce,
        agent,
        height,
        relay,
    })
}

fn announcement(mut words: Words<'_>) -> Result<Message, ShownFault>
    ensures { IsOnly is_typed (λ m. commands.word_of name.SendTxRcncl ∷ words.entry ≡ words_of m) result }
{
    let version = u32_of(words.word())?;
    let salt = salt_of(words.word())?;
    Ok(Message::SendTxRcncl { version, salt })
}

fn request(mut words: Words<'_>) -> Result<Message, ShownFault>
    ensures { IsOnly is_typed (λ m. commands.word_of name.ReqRecon ∷ words.entry ≡ words_of m) result }
{
    let size = u16_of(words.word())?;
    let q = u16_of(words.word())?;
    Ok(Message::ReqRecon { size, q })
}

fn diff(alloc: Global, mut words: Words<'_>) -> Result<Message, ShownFault>
    ensures { IsOnly is_typed (λ m. commands.word_of name.ReconcilDiff ∷ words.entry ≡ words_of m) result }
{
    let success = flag_of(words.word())?;
    let asks = shorts_in(alloc, words)?;
    Ok(Message::ReconcilDiff { success, asks })
}

/// The message of a command that isn't known, by the words behind `other`.
fn other_message(alloc: Global, mut words: Words<'_>) -> Result<Message, ShownFault>
    ensures { IsOnly is_typed (λ m. codes "other" ∷ words.entry ≡ words_of m) result }
{
    let command = array_of::<12>(words.word())?;
    let payload = bytes_of(alloc, words.word())?;
    Ok(Message::Other { command, payload })
}
