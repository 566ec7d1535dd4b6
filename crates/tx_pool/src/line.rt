//! The line of a transaction in a pool file.

ghost use Rattle.std.specs.Prelude.{◌≡◌, ◌<◌, length, IfOk, IsTrue};
ghost use Rattle.id_rules.specs.Bytes.{is_tx_length};
ghost use Rattle.line_rules.specs.Digits as digits;
ghost use Rattle.pool_rules.specs.PoolFile as file;
ghost use Rattle.tx_pool.specs.Lines.{IsLineOutcome, stop_at};

use base_types::{Bytes, Hash32, Kind, OutOfMemory, TextFault};
use hex::{FromHex, FromHexError};
use id_rules::TX_LIMIT;
use line_text::ReadStop;
use short_ids::wtxid;
use std::alloc::Global;

/// Why a line was not read.
#[derive(Clone, Copy, Debug, PartialEq, Eq)]
pub enum LineStop {
    /// What is wrong with it.
    Faulty(Kind),
    /// Memory ran out.
    OutOfMemory,
}

impl From<OutOfMemory> for LineStop {
    ghost use Rattle.std.specs.Prelude.{◌≡◌};
    ghost use Rattle.tx_pool.specs.declared.line.LineStop.TheVariants as stop;

    ghost from_gives = { λ _ s. s ≡ stop.OutOfMemory };

    fn from(_error: OutOfMemory) -> LineStop {
        LineStop::OutOfMemory
    }
}

impl LineStop {
    /// The same of a text whose line with this number it is.
    pub fn at(self, number: u64) -> ReadStop
        ensures { result ≡ stop_at number self }
    {
        match self {
            LineStop::Faulty(kind) => ReadStop::Fault(TextFault {
                place: number,
                kind,
            }),
            LineStop::OutOfMemory => ReadStop::OutOfMemory,
        }
    }
}

/// What is wrong with digits that spell no bytes.
fn kind_of(error: FromHexError) -> Kind
    ensures { result ≡ digits.kind_of error }
{
    match error {
        FromHexError::OddLength => Kind::OddDigits,
        _ => Kind::BadDigit,
    }
}

/// The id that a line begins with.
pub(crate) fn id_in(line: &[u8]) -> Result<Hash32, Kind>
    ensures { result ≡ file.id_in line.now }
{
    if line.len() < 66 || line[64] != b' ' {
        return Err(Kind::Form);
    }
    let (digits, _) = line.split_at(64);
    match <[u8; 32] as FromHex>::from_hex(digits) {
        Ok(id) => Ok(Hash32(id)),
        Err(error) => Err(kind_of(error)),
    }
}

/// The transaction that digits of either case spell, two digits a byte.
pub fn tx_in(alloc: Global, digits: &[u8]) -> Result<Bytes, LineStop>
    ensures read { IsLineOutcome (λ tx. tx) result (file.tx_in digits.now) }
    ensures sized { 0 < length digits.now → IfOk result (λ tx. IsTrue (is_tx_length (length tx))) }
{
    let tx = match hex::decode(alloc, digits) {
        Ok(tx) => tx,
        Err(FromHexError::OutOfMemory) => return Err(LineStop::OutOfMemory),
        Err(error) => return Err(LineStop::Faulty(kind_of(error))),
    };
    if TX_LIMIT < tx.len() {
        return Err(LineStop::Faulty(Kind::TxTooLong));
    }
    Ok(Bytes::from_vec(tx))
}
