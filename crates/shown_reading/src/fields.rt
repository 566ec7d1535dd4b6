//! What single words stand for.

ghost use Rattle.std.specs.Prelude.{◌≡◌, ◌^◌, nat_lt, true};
ghost use Rattle.std.specs.Fmt.{decimal, signed_decimal};
ghost use Rattle.hex.specs.Hex.{encode_lower};
ghost use Rattle.line_rules.specs.Digits.{eight_digits};
ghost use Rattle.id_rules.specs.Bytes.{are_bytes, are_bytes_of, fits_signed, is_optional_byte};
ghost use Rattle.wire_rules.specs.Limits.{is_entry};
ghost use Rattle.wire_rules.specs.Shown as shown;
ghost use Rattle.shown_reading.specs.Reads as reads;
ghost use Rattle.shown_reading.specs.Reads.{IsOnly};

use crate::fault::ShownFault;
use base_types::{Bytes, Hash32};
use hex::{FromHex, FromHexError};
use std::alloc::Global;
use wire_rules::InvEntry;

/// The number that a word spells in decimal digits.
pub(crate) fn number_of(word: &[u8]) -> Result<u64, ShownFault>
    ensures { IsOnly (λ n. nat_lt n (2 ^ 64)) (λ n. word.now ≡ decimal n) result }
{
    let Ok(text) = str::from_utf8(word) else {
        return Err(ShownFault::Form);
    };
    match text.parse::<u64>() {
        Ok(number) => Ok(number),
        Err(_) => Err(ShownFault::Form),
    }
}

/// The signed number that a word spells in decimal digits.
pub(crate) fn signed_of(word: &[u8]) -> Result<i64, ShownFault>
    ensures { IsOnly (fits_signed 63) (λ z. word.now ≡ signed_decimal z) result }
{
    let Ok(text) = str::from_utf8(word) else {
        return Err(ShownFault::Form);
    };
    match text.parse::<i64>() {
        Ok(number) => Ok(number),
        Err(_) => Err(ShownFault::Form),
    }
}

/// A number of 32 bits.
pub(crate) fn u32_of(word: &[u8]) -> Result<u32, ShownFault>
    ensures { IsOnly (λ n. nat_lt n (2 ^ 32)) (λ n. word.now ≡ decimal n) result }
{
    match u32::try_from(number_of(word)?) {
        Ok(number) => Ok(number),
        Err(_) => Err(ShownFault::Form),
    }
}

/// A number of 16 bits.
pub(crate) fn u16_of(word: &[u8]) -> Result<u16, ShownFault>
    ensures { IsOnly (λ n. nat_lt n (2 ^ 16)) (λ n. word.now ≡ decimal n) result }
{
    match u16::try_from(number_of(word)?) {
        Ok(number) => Ok(number),
        Err(_) => Err(ShownFault::Form),
    }
}

/// A signed number of 32 bits.
pub(crate) fn i32_of(word: &[u8]) -> Result<i32, ShownFault>
    ensures { IsOnly (fits_signed 31) (λ z. word.now ≡ signed_decimal z) result }
{
    match i32::try_from(signed_of(word)?) {
        Ok(number) => Ok(number),
        Err(_) => Err(ShownFault::Form),
    }
}

/// `N` bytes by their digits.
pub(crate) fn array_of<const N: usize>(word: &[u8]) -> Result<[u8; N], ShownFault>
    ensures { IsOnly (are_bytes_of N) (λ bytes. word.now ≡ encode_lower bytes) result }
{
    match <[u8; N] as FromHex>::from_hex(word) {
        Ok(bytes) => Ok(bytes),
        Err(_) => Err(ShownFault::Form),
    }
}

/// An address of 26 bytes by their digits.
pub(crate) fn address_of(word: &[u8]) -> Result<[u8; 26], ShownFault>
    ensures { IsOnly (are_bytes_of 26) (λ bytes. word.now ≡ shown.bytes_word bytes) result }
{
    array_of::<26>(word)
}

/// Bytes by their digits, or `-`.
pub(crate) fn bytes_of(alloc: Global, word: &[u8]) -> Result<Bytes, ShownFault>
    ensures { IsOnly are_bytes (λ bytes. word.now ≡ shown.bytes_word bytes) result }
{
    if word == b"-".as_slice() {
        return Ok(Bytes::from_vec(Vec::new(alloc)));
    }
    match hex::decode(alloc, word) {
        Ok(bytes) => Ok(Bytes::from_vec(bytes)),
        Err(fault) => Err(fault_of(fault)),
    }
}

/// Why digits were not read.
fn fault_of(fault: FromHexError) -> ShownFault
    ensures { result ≡ reads.fault_of fault }
{
    match fault {
        FromHexError::OutOfMemory => ShownFault::OutOfMemory,
        _ => ShownFault::Form,
    }
}

/// A short id of 8 digits, the most significant first.
pub(crate) fn short_of(word: &[u8]) -> Result<u32, ShownFault>
    ensures { IsOnly (λ n. nat_lt n (2 ^ 32)) (λ n. word.now ≡ eight_digits n) result }
{
    Ok(u32::from_be_bytes(array_of::<4>(word)?))
}

/// A salt of 16 digits, the most significant first.
pub(crate) fn salt_of(word: &[u8]) -> Result<u64, ShownFault>
    ensures { IsOnly (λ n. nat_lt n (2 ^ 64)) (λ n. word.now ≡ shown.salt_word n) result }
{
    Ok(u64::from_be_bytes(array_of::<8>(word)?))
}

/// `1` or `0`.
pub(crate) fn flag_of(word: &[u8]) -> Result<bool, ShownFault>
    ensures { IsOnly (λ _. true) (λ flag. word.now ≡ shown.flag_word flag) result }
{
    if word == b"1".as_slice() {
        Ok(true)
    } else if word == b"0".as_slice() {
        Ok(false)
    } else {
        Err(ShownFault::Form)
    }
}

/// A byte in decimal digits, or `none`.
pub(crate) fn relay_of(word: &[u8]) -> Result<Option<u8>, ShownFault>
    ensures { IsOnly is_optional_byte (λ relay. word.now ≡ shown.relay_word relay) result }
{
    if word == b"none".as_slice() {
        return Ok(None);
    }
    match u8::try_from(number_of(word)?) {
        Ok(relay) => Ok(Some(relay)),
        Err(_) => Err(ShownFault::Form),
    }
}

/// An entry: its kind, a colon, and its id's digits in stored order.
pub(crate) fn entry_of(word: &[u8]) -> Result<InvEntry, ShownFault>
    ensures { IsOnly is_entry (λ entry. word.now ≡ shown.entry_word entry) result }
{
    let Some(end) = memchr::memchr(b':', word) else {
        return Err(ShownFault::Form);
    };
    let kind = u32_of(&word[..end])?;
    let id = array_of::<32>(&word[end + 1..])?;
    Ok(InvEntry {
        kind,
        id: Hash32(id),
    })
}
