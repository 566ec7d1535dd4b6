//! The commands `sim` and `gen`.

ghost use Rattle.std.specs.Prelude.{◌≡◌, false, IfOk};
ghost use Rattle.pair_rules.specs.World.{IsScript};
ghost use Rattle.protocol_text_rules.specs.Generator as generator;
ghost use Rattle.protocol_text_rules.specs.Pairs.{simulation};
ghost use Rattle.protocol_text_rules.specs.Scripts.{script_in};
ghost use Rattle.text_commands.specs.Answers.{IsReportOf, IsSettled, IsSettledBy, end_status, run_answer, script_answer};

use crate::faults::fault_report;
use crate::report::Report;
use crate::status::Status;
use base_types::OutOfMemory;
use line_text::ReadStop;
use pair_rules::Event;
use script_text::{generated_script, script_of};
use simulation::{Simulation, simulation_of};
use std::alloc::Global;

/// Answers what becomes of two new nodes by the script that the input lists.
pub fn sim(alloc: Global, input: &[u8]) -> Result<Report, OutOfMemory>
    ensures answers { IfOk result (λ report. IsReportOf report (script_answer (script_in input.now))) }
    ensures settled { IfOk result (λ report. IsSettledBy (script_in input.now)) }
{
    match script_of(alloc, input) {
        Ok(script) => run_report(alloc, script.as_slice(), true),
        Err(ReadStop::Fault(fault)) => fault_report(alloc, &fault),
        Err(ReadStop::OutOfMemory) => Err(OutOfMemory),
    }
}

/// Answers what becomes of two new nodes by the script of a number, without the ids of their pools.
pub fn generated(alloc: Global, number: u64) -> Result<Report, OutOfMemory>
    ensures answers { IfOk result (λ report. IsReportOf report (run_answer false (simulation (generator.generated_script number)))) }
    ensures settled { IfOk result (λ report. IsSettled (simulation (generator.generated_script number)).world) }
{
    let script = generated_script(alloc, number)?;
    run_report(alloc, script.as_slice(), false)
}

/// Answers what becomes of two new nodes by a script.
fn run_report(alloc: Global, script: &[Event], with_ids: bool) -> Result<Report, OutOfMemory>
    requires { IsScript script.now }
    ensures answers { IfOk result (λ report. IsReportOf report (run_answer with_ids (simulation script.now))) }
    ensures settled { IfOk result (λ report. IsSettled (simulation script.now).world) }
{
    let run = simulation_of(alloc, script, with_ids)?;
    Ok(report_of(run))
}

/// The text of a run, and the status that it ends with.
fn report_of(run: Simulation) -> Report
    ensures status { result.status ≡ end_status run.end }
    ensures text { result.text ≡ run.text }
{
    let status = match run.end {
        Some(end) => Status::Refused(end),
        None => Status::Ok,
    };
    Report {
        status,
        text: run.text,
    }
}
