//! The fields of a payload, from the left.

ghost use Rattle.std.specs.Prelude.{◌≡◌, ◌==◌, ◌^◌, length};
ghost use Rattle.wire_rules.specs.declared.faults.PayloadKind.TheVariants.{NotMinimal};
ghost use Rattle.recon_messages.specs.declared.fault.FieldStop.TheVariants.{Fault};
ghost use Rattle.wire_rules.specs.Reading as reading;
ghost use Rattle.std.specs.Int.{w8, w16, w32, w64};
ghost use Rattle.recon_messages.specs.Says.{IsField, IsPayload};

use crate::fault::FieldStop;
use base_types::{Bytes, Hash32, Shorts};
use std::alloc::Global;
use std::marker::Model;
use wire_rules::{InvEntry, Invs, LIST_LIMIT, Message, PayloadKind};

/// The bytes of a payload that are still to be read, and the offset of the first of them.
#[derive(Debug, Drop)]
pub(crate) struct Reader<'a> {
    rest: &'a [u8],
    at: usize,
}

impl<'a> Model for Reader<'a> {
    ghost use Rattle.std.specs.Prelude.{◌+◌, ◌<◌, ◌^◌, length};
    ghost use Rattle.wire_rules.specs.Reading.{Cursor};

    ghost Value = { Cursor };

    ghost view = { λ r. record { at = r.at; rest = r.rest.now } };

    ghost invariant = { λ r. r.at + length r.rest.now < 2 ^ 64 };
}

impl<'a> Reader<'a> {
    /// The whole payload.
    pub(crate) fn of(payload: &'a [u8]) -> Self
        ensures { result ≡ reading.start payload.now }
    {
        Reader {
            rest: payload,
            at: 0,
        }
    }

    /// The next `n` bytes, lent.
    pub(crate) fn bytes(&mut self, n: usize) -> Result<&'a [u8], FieldStop>
        ensures { IsField (λ b. b.now) (reading.bytes_at n self.old) result self.new }
    {
        let Some((front, rest)) = self.rest.split_at_checked(n) else {
            return Err(FieldStop::Fault {
                at: (self.at + self.rest.len()) as u64,
                kind: PayloadKind::Short,
            });
        };
        self.rest = rest;
        self.at += n;
        Ok(front)
    }

    /// The next `N` bytes.
    pub(crate) fn array<const N: usize>(&mut self) -> Result<[u8; N], FieldStop>
        ensures { IsField (λ b. b) (reading.bytes_at N self.old) result self.new }
    {
        let Some((front, rest)) = self.rest.split_first_chunk::<N>() else {
            return Err(FieldStop::Fault {
                at: (self.at + self.rest.len()) as u64,
                kind: PayloadKind::Short,
            });
        };
        self.rest = rest;
        self.at += N;
        Ok(*front)
    }

    pub(crate) fn read_u8(&mut self) -> Result<u8, FieldStop>
        ensures { IsField (λ n. n) (reading.number_at w8 self.old) result self.new }
    {
        Ok(u8::from_le_bytes(self.array()?))
    }

    pub(crate) fn read_u16(&mut self) -> Result<u16, FieldStop>
        ensures { IsField (λ n. n) (reading.number_at w16 self.old) result self.new }
    {
        Ok(u16::from_le_bytes(self.array()?))
    }

    pub(crate) fn read_u32(&mut self) -> Result<u32, FieldStop>
        ensures { IsField (λ n. n) (reading.number_at w32 self.old) result self.new }
    {
        Ok(u32::from_le_bytes(self.array()?))
    }

    pub(crate) fn read_u64(&mut self) -> Result<u64, FieldStop>
        ensures { IsField (λ n. n) (reading.number_at w64 self.old) result self.new }
    {
        Ok(u64::from_le_bytes(self.array()?))
    }

    pub(crate) fn read_i32(&mut self) -> Result<i32, FieldStop>
        ensures { IsField (λ n. n) (reading.signed_at w32 self.old) result self.new }
    {
        Ok(i32::from_le_bytes(self.array()?))
    }

    pub(crate) fn read_i64(&mut self) -> Result<i64, FieldStop>
        ensures { IsField (λ n. n) (reading.signed_at w64 self.old) result self.new }
    {
        Ok(i64::from_le_bytes(self.array()?))
    }
}

impl<'a> Reader<'a> {
    /// The offset of the next byte.
    fn offset(&self) -> u64
        ensures { result ≡ self.now.at }
    {
        self.at as u64
    }

    /// Whether no byte is left.
    fn is_at_end(&self) -> bool
        ensures { result ≡ (length self.now.rest == 0) }
    {
        self.rest.is_empty()
    }

    /// A number of 2 bytes behind the mark 0xFD, which it has to need.
    fn marked_u16(&mut self, at: u64) -> Result<u64, FieldStop>
        ensures { IsField (λ n. n) (reading.number_after_mark at 0xFD w16 self.old) result self.new }
    {
        let n = self.read_u16()?;
        if n < 0xFD {
            return Err(not_minimal(at));
        }
        Ok(u64::from(n))
    }

    /// A number of 4 bytes behind the mark 0xFE, which it has to need.
    fn marked_u32(&mut self, at: u64) -> Result<u64, FieldStop>
        ensures { IsField (λ n. n) (reading.number_after_mark at (2 ^ 16) w32 self.old) result self.new }
    {
        let n = self.read_u32()?;
        if n < 0x1_0000 {
            return Err(not_minimal(at));
        }
        Ok(u64::from(n))
    }

    /// A number of 8 bytes behind the mark 0xFF, which it has to need.
    fn marked_u64(&mut self, at: u64) -> Result<u64, FieldStop>
        ensures { IsField (λ n. n) (reading.number_after_mark at (2 ^ 32) w64 self.old) result self.new }
    {
        let n = self.read_u64()?;
        if n < 0x1_0000_0000 {
            return Err(not_minimal(at));
        }
        Ok(n)
    }

    /// What the first byte of a CompactSize, which stands at this offset, means.
    fn number_by_mark(&mut self, at: u64, first: u8) -> Result<u64, FieldStop>
        ensures { IsField (λ n. n) (reading.number_by_mark at first self.old) result self.new }
    {
        match first {
            0xFD => self.marked_u16(at),
            0xFE => self.marked_u32(at),
            0xFF => self.marked_u64(at),
            _ => Ok(u64::from(first)),
        }
    }

    /// A count up to a limit, as a CompactSize.
    #[tactic(auto, unfolding(wire_rules::specs::Reading::count_at))]
    fn count(&mut self, limit: usize) -> Result<usize, FieldStop>
        ensures { IsField (λ n. n) (reading.count_at limit self.old) result self.new }
    {
        let at = self.offset();
        let first = self.read_u8()?;
        let n = self.number_by_mark(at, first)?;
        if n > limit as u64 {
            return Err(FieldStop::Fault {
                at,
                kind: PayloadKind::TooMany,
            });
        }
        Ok(n as usize)
    }

    /// Bytes behind their count, copied.
    pub(crate) fn counted_bytes(&mut self, alloc: Global, limit: usize) -> Result<Bytes, FieldStop>
        ensures { IsField (λ b. b) (reading.counted_bytes_at limit self.old) result self.new }
    {
        let n = self.count(limit)?;
        let bytes = self.bytes(n)?;
        Ok(Bytes::from_vec(bytes.to_vec(alloc)?))
    }

    #[tactic(auto, unfolding(wire_rules::specs::Reading::entry_at))]
    fn entry(&mut self) -> Result<InvEntry, FieldStop>
        ensures { IsField (λ e. e) (reading.entry_at self.old) result self.new }
    {
        let kind = self.read_u32()?;
        let id = self.array()?;
        Ok(InvEntry {
            kind,
            id: Hash32(id),
        })
    }

    /// `n` entries in a row.
    fn entries_of(&mut self, alloc: Global, n: usize) -> Result<Vec<InvEntry>, FieldStop>
        ensures { IsField (λ v. v.items) (reading.items_at reading.entry_at n self.old) result self.new }
    {
        let mut entries = Vec::with_capacity(alloc, n)?;
        for i in 0..n {
            let _ = i;
            let entry = self.entry()?;
            entries.push(entry)?;
        }
        Ok(entries)
    }

    /// Entries behind their count.
    pub(crate) fn entries(&mut self, alloc: Global) -> Result<Invs, FieldStop>
        ensures { IsField (λ v. v) (reading.counted_items_at reading.entry_at self.old) result self.new }
    {
        let n = self.count(LIST_LIMIT)?;
        let entries = self.entries_of(alloc, n)?;
        Ok(Invs::from_vec(entries))
    }

    /// `n` short ids in a row.
    fn shorts_of(&mut self, alloc: Global, n: usize) -> Result<Vec<u32>, FieldStop>
        ensures { IsField (λ v. v.items) (reading.items_at (reading.number_at w32) n self.old) result self.new }
    {
        let mut shorts = Vec::with_capacity(alloc, n)?;
        for i in 0..n {
            let _ = i;
            let short = self.read_u32()?;
            shorts.push(short)?;
        }
        Ok(shorts)
    }

    /// Short ids behind their count.
    pub(crate) fn shorts(&mut self, alloc: Global) -> Result<Shorts, FieldStop>
        ensures { IsField (λ v. v) (reading.counted_items_at (reading.number_at w32) self.old) result self.new }
    {
        let n = self.count(LIST_LIMIT)?;
        let shorts = self.shorts_of(alloc, n)?;
        Ok(Shorts::from_vec(shorts))
    }

    /// A byte that is 0 or 1.
    #[tactic(auto, unfolding(wire_rules::specs::Reading::flag_at))]
    pub(crate) fn flag(&mut self) -> Result<bool, FieldStop>
        ensures { IsField (λ b. b) (reading.flag_at self.old) result self.new }
    {
        let at = self.offset();
        let byte = self.read_u8()?;
        match byte {
            0 => Ok(false),
            1 => Ok(true),
            _ => Err(FieldStop::Fault {
                at,
                kind: PayloadKind::BadFlag,
            }),
        }
    }

    /// A byte that may be absent.
    #[tactic(auto, unfolding(wire_rules::specs::Reading::optional_at))]
    pub(crate) fn optional(&mut self) -> Result<Option<u8>, FieldStop>
        ensures { IsField (λ b. b) (reading.optional_at self.old) result self.new }
    {
        if self.is_at_end() {
            return Ok(None);
        }
        let byte = self.read_u8()?;
        Ok(Some(byte))
    }

    /// The message, where no byte is left.
    #[tactic(auto, unfolding(wire_rules::specs::Reading::message_at_end))]
    pub(crate) fn at_end(&self, message: Message) -> Result<Message, FieldStop>
        ensures { IsPayload (reading.message_at_end message self.now) result }
    {
        if !self.is_at_end() {
            return Err(FieldStop::Fault {
                at: self.offset(),
                kind: PayloadKind::Trailing,
            });
        }
        Ok(message)
    }
}

/// A count that isn't spelled in as few bytes as it can be.
fn not_minimal(at: u64) -> FieldStop
    ensures { result ≡ Fault at NotMinimal }
{
    FieldStop::Fault {
        at,
        kind: PayloadKind::NotMinimal,
    }
}
