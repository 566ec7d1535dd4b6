//! A sketch at an opener: it is merged with the own one, decoded and answered.
#![tactic(auto)]

ghost use Rattle.std.specs.Prelude.{◌≡◌, Ok, Err, Some, IfOk, IfErr, OnErr, IfSome, IsErrAnd, option_and_then, option_map, map};
ghost use Rattle.sketch_rules.specs.Answers.{answer_of};
ghost use Rattle.sketch_core.specs.Answered.{decoded_numbers};
ghost use Rattle.node_rules.specs.Opener.{opener_sketch};
ghost use Rattle.initiator.specs.Questions.{end_of};

#[cfg(test)]
mod tests;

use base_types::OutOfMemory;
use field_core::Field;
use initiator::{Initiator, InitiatorFault};
use recon_set::ReconSet;
use sketch_core::{Decoded, Sketch};
use std::alloc::Global;
use trace_roots::decode;
use wire_rules::Outs;

/// Takes the bytes of a sketch message: the round is answered or falls back, or an extension is asked for. A refusal and
/// want of memory leave the machine and the set as they were.
pub fn take_sketch<F: Field>(
    alloc: Global,
    machine: &mut Initiator<F>,
    set: &mut ReconSet<F>,
    skdata: &[u8],
) -> Result<Outs, InitiatorFault>
    requires { F.BITS ≡ 32 }
    ensures ok { IfOk result (λ outs. opener_sketch machine.old set.old skdata.now
        ≡ Ok (record { initiator = machine.new; set = set.new; out = outs })) }
    ensures told { IfErr result (λ fault. IfSome (end_of fault) (λ end. opener_sketch machine.old set.old skdata.now ≡ Err end)) }
    ensures refused { IfErr (opener_sketch machine.old set.old skdata.now) (λ end. IsErrAnd result (λ fault. end_of fault ≡ Some end)) }
    ensures err { OnErr result ((machine.new ≡ machine.old) × (set.new ≡ set.old)) }
{
    let asked = machine.merged(skdata, set)?;
    let answer = answer_to(alloc, asked)?;
    Ok(machine.on_answer(skdata, set, answer)?)
}

/// What decoding answers, which is no set where nothing is asked.
fn answer_to<F: Field>(alloc: Global, asked: Option<Sketch<F>>) -> Result<Decoded<F>, OutOfMemory>
    requires { F.BITS ≡ 32 }
    ensures { IfOk result (λ answer. decoded_numbers F.bits_of answer ≡ option_and_then answer_of (option_map (map F.bits_of) asked)) }
{
    match asked {
        Some(sketch) => decode(alloc, &sketch),
        None => Ok(Decoded::NoSet),
    }
}
