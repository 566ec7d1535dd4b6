//! Fields of a line, each put behind a space.

ghost use Rattle.std.specs.Prelude.{◌≡◌, ◌*◌, ◌++◌, ◌∷◌, OnOk, flat_map};
ghost use Rattle.std.specs.Fmt.{signed_decimal};
ghost use Rattle.hex.specs.Hex.{encode_lower};
ghost use Rattle.line_rules.specs.Digits.{eight_digits};
ghost use Rattle.wire_rules.specs.Shown as shown;

use itoa::{Buffer, Integer};
use std::alloc::AllocError;
use wire_rules::InvEntry;

/// A space and a word.
pub(crate) fn put_word(out: &mut Vec<u8>, word: &[u8]) -> Result<(), AllocError>
    ensures { OnOk result (out.new.items ≡ out.old.items ++ 32 ∷ word.now) }
{
    out.push(b' ')?;
    out.extend_from_slice(word)
}

/// A number in decimal digits.
pub(crate) fn put_number<I: Integer>(out: &mut Vec<u8>, number: I) -> Result<(), AllocError>
    ensures { OnOk result (out.new.items ≡ out.old.items ++ 32 ∷ I.text number) }
{
    let mut buffer = Buffer::new();
    put_word(out, buffer.format(number).as_bytes())
}

/// A signed number of 32 bits in decimal digits.
pub(crate) fn put_i32(out: &mut Vec<u8>, number: &i32) -> Result<(), AllocError>
    ensures { OnOk result (out.new.items ≡ out.old.items ++ 32 ∷ signed_decimal number.now) }
{
    put_number(out, *number)
}

/// A signed number of 64 bits in decimal digits.
pub(crate) fn put_i64(out: &mut Vec<u8>, number: &i64) -> Result<(), AllocError>
    ensures { OnOk result (out.new.items ≡ out.old.items ++ 32 ∷ signed_decimal number.now) }
{
    put_number(out, *number)
}

/// The lower-case digits of so many bytes.
pub(crate) fn digits<const N: usize, const M: usize>(bytes: &[u8; N]) -> [u8; M]
    requires { M ≡ 2 * N }
    ensures { result ≡ encode_lower bytes.now }
{
    let mut digits = [0u8; M];
    let Ok(()) = hex::encode_to_slice(bytes.as_slice(), &mut digits) else {
        unreachable!()
    };
    digits
}

/// The digits of bytes, or `-` where there are none.
pub(crate) fn put_bytes(out: &mut Vec<u8>, bytes: &[u8]) -> Result<(), AllocError>
    ensures { OnOk result (out.new.items ≡ out.old.items ++ 32 ∷ shown.bytes_word bytes.now) }
{
    if bytes.is_empty() {
        return put_word(out, b"-");
    }
    let digits = hex::encode(*out.allocator(), bytes)?;
    put_word(out, digits.as_bytes())
}

/// A byte in decimal digits, or `none`.
pub(crate) fn put_relay(out: &mut Vec<u8>, relay: Option<u8>) -> Result<(), AllocError>
    ensures { OnOk result (out.new.items ≡ out.old.items ++ 32 ∷ shown.relay_word relay) }
{
    match relay {
        Some(relay) => put_number(out, relay),
        None => put_word(out, b"none"),
    }
}

/// `1` or `0`.
pub(crate) fn put_flag(out: &mut Vec<u8>, flag: bool) -> Result<(), AllocError>
    ensures { OnOk result (out.new.items ≡ out.old.items ++ 32 ∷ shown.flag_word flag) }
{
    if flag {
        put_word(out, b"1")
    } else {
        put_word(out, b"0")
    }
}

/// 16 digits, the most significant first.
pub(crate) fn put_salt(out: &mut Vec<u8>, salt: u64) -> Result<(), AllocError>
    ensures { OnOk result (out.new.items ≡ out.old.items ++ 32 ∷ shown.salt_word salt) }
{
    put_word(out, &digits::<8, 16>(&salt.to_be_bytes()))
}

/// 8 digits, the most significant first.
pub(crate) fn put_short(out: &mut Vec<u8>, short: u32) -> Result<(), AllocError>
    ensures { OnOk result (out.new.items ≡ out.old.items ++ 32 ∷ eight_digits short) }
{
    put_word(out, &digits::<4, 8>(&short.to_be_bytes()))
}

/// The kind, a colon, and the id's digits in stored order.
pub(crate) fn put_entry(out: &mut Vec<u8>, entry: &InvEntry) -> Result<(), AllocError>
    ensures { OnOk result (out.new.items ≡ out.old.items ++ 32 ∷ shown.entry_word entry.now) }
{
    put_number(out, entry.kind)?;
    out.push(b':')?;
    out.extend_from_slice(&digits::<32, 64>(&entry.id.0))
}

/// Entries, each behind a space.
pub(crate) fn put_each_entry(out: &mut Vec<u8>, entries: &[InvEntry]) -> Result<(), AllocError>
    ensures { OnOk result (out.new.items ≡ out.old.items ++ flat_map (λ e. 32 ∷ shown.entry_word e) entries.now) }
{
    for entry in entries {
        put_entry(out, entry)?;
    }
    Ok(())
}

/// Short ids, each behind a space.
pub(crate) fn put_each_short(out: &mut Vec<u8>, shorts: &[u32]) -> Result<(), AllocError>
    ensures { OnOk result (out.new.items ≡ out.old.items ++ flat_map (λ n. 32 ∷ eight_digits n) shorts.now) }
{
    for short in shorts {
        put_short(out, *short)?;
    }
    Ok(())
}
