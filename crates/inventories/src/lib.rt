//! Ids as the messages that announce them and ask for them.
#![tactic(auto)]

ghost use Rattle.std.specs.Prelude.{◌≡◌, ◌++◌, map, IfOk};
ghost use Rattle.node_rules.specs.Turns.{entry, inv_of, getdata_of, notfound_of};

#[cfg(test)]
mod tests;

use base_types::{Hash32, OutOfMemory};
use std::alloc::Global;
use wire_rules::{InvEntry, Invs, Message};

/// The kind of a transaction that is named by its wtxid (BIP 339).
pub const WTXID_KIND: u32 = 5;

/// Transactions named by these wtxids.
pub fn entries_of(alloc: Global, ids: &[Hash32]) -> Result<Invs, OutOfMemory>
    ensures { IfOk result (λ entries. entries ≡ map entry ids.now) }
{
    let mut entries = Vec::with_capacity(alloc, ids.len())?;
    for id in ids {
        entries.push(InvEntry {
            kind: WTXID_KIND,
            id: *id,
        })?;
    }
    Ok(Invs::from_vec(entries))
}

/// Puts the announcement of these ids behind messages. There is none of no ids.
pub fn push_announcement(
    alloc: Global,
    messages: &mut Vec<Message>,
    ids: &[Hash32],
) -> Result<(), OutOfMemory>
    ensures { IfOk result (λ _. messages.new.items ≡ messages.old.items ++ inv_of ids.now) }
{
    if !ids.is_empty() {
        messages.push(Message::Inv(entries_of(alloc, ids)?))?;
    }
    Ok(())
}

/// The message that announces these ids. There is none of no ids.
pub fn announcement_of(alloc: Global, ids: &[Hash32]) -> Result<Vec<Message>, OutOfMemory>
    ensures { IfOk result (λ messages. messages.items ≡ inv_of ids.now) }
{
    let mut messages = Vec::new(alloc);
    push_announcement(alloc, &mut messages, ids)?;
    Ok(messages)
}

/// The message that asks for these ids. There is none for no ids.
pub fn request_of(alloc: Global, ids: &[Hash32]) -> Result<Vec<Message>, OutOfMemory>
    ensures { IfOk result (λ messages. messages.items ≡ getdata_of ids.now) }
{
    let mut messages = Vec::new(alloc);
    if !ids.is_empty() {
        messages.push(Message::GetData(entries_of(alloc, ids)?))?;
    }
    Ok(messages)
}

/// The message that says what can't be sent. There is none of no entries.
pub fn refusal_of(alloc: Global, entries: &[InvEntry]) -> Result<Vec<Message>, OutOfMemory>
    ensures { IfOk result (λ messages. messages.items ≡ notfound_of entries.now) }
{
    let mut messages = Vec::new(alloc);
    if !entries.is_empty() {
        messages.push(Message::NotFound(Invs::from_vec(Vec::from_slice(alloc, entries)?)))?;
    }
    Ok(messages)
}
