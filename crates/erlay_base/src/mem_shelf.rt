//! A shelf that keeps its contents.

ghost use Rattle.std.specs.Prelude.{Some, ◌≡◌, ◌∷◌, ◌++◌, ◌≤◌, [], IsErr, OnErr, OnOk, length, map, option_map};
ghost use Rattle.std.specs.List.{Contains};
ghost use Rattle.std.specs.Io.{ReadsAtMost};
ghost use Rattle.link_rules.specs.Shelves.{ReadCall, SaveCall, content_of};
ghost use Rattle.erlay_base.specs.Causes.{HasCause, next_count, count_if_failed};
ghost use Rattle.erlay_base.specs.LinkFakes.{content_among, contents_of, others_among, shelf_call_of};
ghost use Rattle.erlay_base.specs.ShelfCalls.{IsPart, IsReadAt, IsSaved};

use crate::Shelf;
use crate::calls::{fault, is_to_fail};
use base_types::Failed;
use std::alloc::{AllocError, Global};
use std::marker::Model;

/// A call, with its name.
#[derive(Debug, Drop)]
pub(crate) enum KeptShelfCall {
    Read(String),
    Save(String),
}

/// Keeps contents under names, and tells them and its calls. The calls whose numbers it was given
/// fail; calls are counted from 1. A read of a name that it doesn't hold fails. Any other call may
/// fail for want of memory for what it keeps, and counts that as a fault; such a call may be missing
/// from the calls that it tells. A read gives as many bytes as there are and fit.
#[derive(Debug, Drop)]
pub struct MemShelf {
    alloc: Global,
    held: Vec<(String, Vec<u8>)>,
    asked: Vec<KeptShelfCall>,
    failing: Vec<u64>,
    calls: u64,
    faults: u64,
}

impl Model for MemShelf {
    ghost use Rattle.std.specs.Prelude.{map};
    ghost use Rattle.erlay_base.specs.LinkFakes.{ShelfState, contents_of, shelf_call_of};

    ghost Value = { ShelfState };

    ghost view = { λ s. record {
      shelf = record { contents = contents_of s.held.items; calls = map shelf_call_of s.asked.items };
      failing = s.failing.items;
      calls = s.calls;
      faults = s.faults;
    } };
}

impl MemShelf {
    /// A shelf of these contents under these names, of which no two are equal. The calls with the
    /// numbers `failing` fail.
    pub fn new(alloc: Global, held: Vec<(String, Vec<u8>)>, failing: Vec<u64>) -> MemShelf
        ensures contents { result.shelf.contents ≡ contents_of held.items }
        ensures asked { result.shelf.calls ≡ [] }
        ensures failing { result.failing ≡ failing.items }
        ensures calls { result.calls ≡ 0 }
        ensures faults { result.faults ≡ 0 }
    {
        MemShelf {
            alloc,
            held,
            asked: Vec::new(alloc),
            failing,
            calls: 0,
            faults: 0,
        }
    }

    /// What it holds under `name`.
    pub fn content(&self, name: &str) -> Option<&[u8]>
        ensures { option_map (λ b. b.now) result ≡ content_of self.now.shelf name.now }
    {
        find(&self.held, name)
    }
}

impl Shelf for MemShelf {
    ghost told = { λ s. Some s.shelf };

    ghost faults = { λ s. s.faults };

    fn read_at(&mut self, name: &str, at: u64, buf: &mut [u8]) -> Result<usize, Failed>
        ensures bound { ReadsAtMost result buf.new }
        ensures told { IsReadAt result name.now at buf.new self.old.shelf self.new.shelf }
        ensures cause { HasCause self.old.faults self.new.faults result }
        ensures failing { Contains self.old.failing self.new.calls → IsErr result }
        ensures calls { self.new.calls ≡ next_count self.old.calls }
        ensures faults { self.new.faults ≡ count_if_failed result self.old.faults }
        ensures same { self.new.failing ≡ self.old.failing }
    {
        let is_to_fail = is_to_fail(self.failing.as_slice(), &mut self.calls);
        if keep_read(self.alloc, &mut self.asked, name).is_err() || is_to_fail {
            return Err(fault(&mut self.faults));
        }
        let Some(content) = find(&self.held, name) else {
            return Err(fault(&mut self.faults));
        };
        Ok(copy_part(content, at, buf))
    }

    fn save(&mut self, name: &str, bytes: &[u8]) -> Result<(), Failed>
        ensures told { IsSaved result name.now bytes.now self.old.shelf self.new.shelf }
        ensures cause { HasCause self.old.faults self.new.faults result }
        ensures failing { Contains self.old.failing self.new.calls → IsErr result }
        ensures calls { self.new.calls ≡ next_count self.old.calls }
        ensures faults { self.new.faults ≡ count_if_failed result self.old.faults }
        ensures same { self.new.failing ≡ self.old.failing }
    {
        let is_to_fail = is_to_fail(self.failing.as_slice(), &mut self.calls);
        if keep_save(self.alloc, &mut self.asked, name).is_err() || is_to_fail {
            return Err(fault(&mut self.faults));
        }
        if put(self.alloc, &mut self.held, name, bytes).is_err() {
            return Err(fault(&mut self.faults));
        }
        Ok(())
    }
}

// What is held under a name.
fn find<'a>(held: &'a [(String, Vec<u8>)], name: &str) -> Option<&'a [u8]>
    ensures { option_map (λ b. b.now) result ≡ content_among (contents_of held.now) name.now }
{
    for (key, bytes) in held {
        if key.as_str() == name {
            return Some(bytes.as_slice());
        }
    }
    None
}

// Puts bytes under a name, in place of those that were there. All memory is taken first.
fn put(
    alloc: Global,
    held: &mut Vec<(String, Vec<u8>)>,
    name: &str,
    bytes: &[u8],
) -> Result<(), AllocError>
    ensures others { others_among (contents_of held.new.items) name.now ≡ others_among (contents_of held.old.items) name.now }
    ensures content { OnOk result (content_among (contents_of held.new.items) name.now ≡ Some bytes.now) }
{
    let entry = (String::from_str(alloc, name)?, bytes.to_vec(alloc)?);
    held.reserve(1)?;
    held.retain(|(key, _)| key.as_str() != name);
    held.insert(0, entry)?;
    Ok(())
}

// Adds a read to the calls that are told.
fn keep_read(alloc: Global, asked: &mut Vec<KeptShelfCall>, name: &str) -> Result<(), AllocError>
    ensures ok { OnOk result (map shelf_call_of asked.new.items ≡ map shelf_call_of asked.old.items ++ ReadCall name.now ∷ []) }
    ensures err { OnErr result (map shelf_call_of asked.new.items ≡ map shelf_call_of asked.old.items) }
{
    let name = String::from_str(alloc, name)?;
    asked.push(KeptShelfCall::Read(name))?;
    Ok(())
}

// Adds a save to the calls that are told.
fn keep_save(alloc: Global, asked: &mut Vec<KeptShelfCall>, name: &str) -> Result<(), AllocError>
    ensures ok { OnOk result (map shelf_call_of asked.new.items ≡ map shelf_call_of asked.old.items ++ SaveCall name.now ∷ []) }
    ensures err { OnErr result (map shelf_call_of asked.new.items ≡ map shelf_call_of asked.old.items) }
{
    let name = String::from_str(alloc, name)?;
    asked.push(KeptShelfCall::Save(name))?;
    Ok(())
}

// Copies the bytes from an index on, as many as there are and fit.
fn copy_part(content: &[u8], at: u64, buf: &mut [u8]) -> usize
    ensures part { IsPart content.now at result buf.new }
    ensures bound { result ≤ length buf.new }
{
    let start = content.len().min(at as usize);
    let rest = &content[start..];
    let count = buf.len().min(rest.len());
    buf[..count].copy_from_slice(&rest[..count]);
    count
}
