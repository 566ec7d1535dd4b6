//! The texts of faults of a text.

ghost use Rattle.std.specs.Prelude.{◌≡◌, ◌++◌, IfOk, codes};
ghost use Rattle.std.specs.String.{string_bytes};
ghost use Rattle.hex.specs.Hex.{encode_lower};
ghost use Rattle.line_rules.specs.Lines.{line};
ghost use Rattle.sketch_text_rules.specs.Faults as faults;

use base_types::{Hash32, Kind, TextFault};
use std::alloc::{AllocError, Global};

/// An id that stands where another was computed.
fn ids_text(alloc: Global, stands: &Hash32, computed: &Hash32) -> Result<String, AllocError>
    ensures { IfOk result (λ text. string_bytes text ≡ codes "id " ++ encode_lower stands.now.0 ++ codes " not " ++ encode_lower computed.now.0) }
{
    let stands = hex::encode(alloc, stands.0)?;
    let computed = hex::encode(alloc, computed.0)?;
    format!(in alloc; "id {stands} not {computed}")
}

/// What is wrong, in words.
#[tactic(auto, unfolding(sketch_text_rules::specs::Faults::kind_text))]
fn kind_text(alloc: Global, kind: &Kind) -> Result<String, AllocError>
    ensures { IfOk result (λ text. string_bytes text ≡ faults.kind_text kind.now) }
{
    match kind {
        Kind::DigitCount => String::from_str(alloc, "digit count"),
        Kind::BadDigit => String::from_str(alloc, "bad digit"),
        Kind::OddDigits => String::from_str(alloc, "odd digits"),
        Kind::Zero => String::from_str(alloc, "zero"),
        Kind::Repeated => String::from_str(alloc, "repeated"),
        Kind::RaggedLength(len) => format!(in alloc; "ragged length {len}"),
        Kind::TooWide(len) => format!(in alloc; "too wide {len}"),
        Kind::LineCount => String::from_str(alloc, "line count"),
        Kind::LengthsDiffer => String::from_str(alloc, "lengths differ"),
        Kind::Form => String::from_str(alloc, "form"),
        Kind::TxTooLong => String::from_str(alloc, "transaction too long"),
        Kind::IdMismatch { stands, computed } => ids_text(alloc, stands, computed),
        Kind::PoolFull => String::from_str(alloc, "pool full"),
        Kind::TooMany => String::from_str(alloc, "too many"),
    }
}

/// The line of a fault of a text: `bad input`, its place in decimal digits, and what is wrong.
pub fn bad_input_line(alloc: Global, fault: &TextFault) -> Result<Vec<u8>, AllocError>
    ensures { IfOk result (λ text. text.items ≡ line (faults.bad_input_text fault.now.place fault.now.kind)) }
{
    let place = fault.place;
    let kind = kind_text(alloc, &fault.kind)?;
    let text = format!(in alloc; "bad input {place}: {kind}\n")?;
    Ok(text.into_bytes())
}
