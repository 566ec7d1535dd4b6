//! What a call leaves in its caller's buffers, and the code that it answers.

ghost use Rattle.std.specs.Prelude.{◌≡◌, ◌≤◌, length, IfOk};
ghost use Rattle.erlay_c.specs.Codes.{code_of};
ghost use Rattle.erlay_c.specs.Calls.{front_after, count_after};

use crate::refusal::{DONE, Refusal};
use base_types::{Elems, Shorts};

/// Writes the items into the front of the buffer, and answers the code.
pub(crate) fn write_front<T: Copy>(buffer: &mut [T], outcome: Result<Elems<T>, Refusal>) -> u32
    requires { IfOk outcome (λ items. length items ≤ length buffer.old) }
    ensures code { result ≡ code_of outcome }
    ensures buffer { buffer.new ≡ front_after outcome buffer.old }
{
    match outcome {
        Ok(items) => {
            let written = items.as_slice();
            buffer[..written.len()].copy_from_slice(written);
            DONE
        }
        Err(refusal) => refusal.number(),
    }
}

/// Writes the set into the front of the buffer and its size into `count`, and answers the code.
pub(crate) fn write_set(
    elements: &mut [u32],
    count: &mut usize,
    outcome: Result<Shorts, Refusal>,
) -> u32
    requires { IfOk outcome (λ set. length set ≤ length elements.old) }
    ensures code { result ≡ code_of outcome }
    ensures elements { elements.new ≡ front_after outcome elements.old }
    ensures count { count.new ≡ count_after outcome count.old }
{
    if let Ok(set) = &outcome {
        *count = set.as_slice().len();
    }
    write_front(elements, outcome)
}
