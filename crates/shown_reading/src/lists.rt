//! What any number of like words stand for.

ghost use Rattle.std.specs.Prelude.{◌≡◌, ◌^◌, nat_lt, map};
ghost use Rattle.std.specs.List.{list_all};
ghost use Rattle.line_rules.specs.Digits.{eight_digits};
ghost use Rattle.wire_rules.specs.Limits.{is_entry};
ghost use Rattle.wire_rules.specs.Shown.{entry_word};
ghost use Rattle.shown_reading.specs.Reads.{IsOnly};

use crate::fault::ShownFault;
use crate::fields::{entry_of, short_of};
use crate::words::Words;
use base_types::Shorts;
use std::alloc::Global;
use wire_rules::Invs;

/// Entries, to the last word.
pub(crate) fn entries_in(alloc: Global, words: Words<'_>) -> Result<Invs, ShownFault>
    ensures { IsOnly (list_all is_entry) (λ entries. words.entry ≡ map entry_word entries) result }
{
    let mut entries = Vec::new(alloc);
    for word in words {
        entries.push(entry_of(word)?)?;
    }
    Ok(Invs::from_vec(entries))
}

/// Short ids, to the last word.
pub(crate) fn shorts_in(alloc: Global, words: Words<'_>) -> Result<Shorts, ShownFault>
    ensures { IsOnly (list_all (λ n. nat_lt n (2 ^ 32))) (λ shorts. words.entry ≡ map eight_digits shorts) result }
{
    let mut shorts = Vec::new(alloc);
    for word in words {
        shorts.push(short_of(word)?)?;
    }
    Ok(Shorts::from_vec(shorts))
}
