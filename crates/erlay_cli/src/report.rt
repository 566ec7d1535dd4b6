//! What is answered and written of an exchange.

ghost use Rattle.std.specs.Prelude.{◌≡◌, ◌++◌, ◌∷◌, [], Ok, IfOk, IfErr, OnOk};
ghost use Rattle.std.specs.declared.result.Result.{Result};
ghost use Rattle.line_rules.specs.Lines.{line};
ghost use Rattle.erlay_cli.specs.Courses.{IsReported, status_of, text_of, status_of_end, text_of_end};
ghost use Rattle.erlay_cli.specs.Halts.{status_of_halt, text_of_halt};
ghost use Rattle.erlay_cli.specs.declared.course.Course.TheVariants as course;
ghost use Rattle.pool_session.specs.declared.outcome.Outcome.TheVariants as outcome;
ghost use Rattle.session_rules.specs.declared.session_end.SessionEnd.TheVariants as session_end;

use crate::course::Course;
use base_types::OutOfMemory;
use fault_text::bad_input_line;
use node_rules::End;
use pool_rules::POOL_FILE_LIMIT;
use pool_session::{Outcome, PoolStop};
use round_text::{refused_text, truncated_text};
use session_rules::{SESSION_LIMIT, SessionEnd};
use std::alloc::{AllocError, Global};
use text_commands::{Report, Status};
use wire_rules::Phase;

/// What an exchange ends with where nothing has to be spelled. The texts are fixed, and take no memory.
#[derive(Clone, Copy, Debug, PartialEq, Eq)]
pub(crate) enum Halt {
    /// Nothing more is written.
    WriteFault,
    LinkFault,
    ShelfFault,
    LongPool,
    LongSession,
    OutOfMemory,
}

impl Halt {
    /// The text to write, with its line end.
    pub fn text(self) -> &'static [u8]
        ensures { result.now ≡ text_of_halt self }
    {
        match self {
            Halt::WriteFault => b"",
            Halt::LinkFault => b"link fault\n",
            Halt::ShelfFault => b"shelf fault\n",
            Halt::LongPool => b"too long 272000000\n",
            Halt::LongSession => b"too long 1073741824\n",
            Halt::OutOfMemory => b"out of memory\n",
        }
    }

    pub fn status(self) -> Status
        ensures { result ≡ status_of_halt self }
    {
        match self {
            Halt::WriteFault => Status::WriteFault,
            Halt::LinkFault => Status::LinkFault,
            Halt::ShelfFault => Status::ShelfFault,
            Halt::LongPool => Status::TooLong(POOL_FILE_LIMIT),
            Halt::LongSession => Status::TooLong(SESSION_LIMIT),
            Halt::OutOfMemory => Status::OutOfMemory,
        }
    }
}

/// The status and the text of an exchange.
pub(crate) fn report_of(alloc: Global, course: Course) -> Result<Report, Halt>
    ensures ok { IfOk result (λ report. IsReported course report.status report.text.items) }
    ensures err { IfErr result (λ halt. IsReported course (status_of_halt halt) (text_of_halt halt)) }
{
    match course {
        Course::Unloaded(stop) => load_report(alloc, stop),
        Course::Unlinked => Err(Halt::LinkFault),
        Course::Unannounced => Err(Halt::WriteFault),
        Course::Unaccepted => Err(Halt::LinkFault),
        Course::Starved => Err(Halt::OutOfMemory),
        Course::Over(outcome) => outcome_report(alloc, outcome),
    }
}

/// Of a pool that wasn't loaded.
fn load_report(alloc: Global, stop: PoolStop) -> Result<Report, Halt>
    ensures ok { IfOk result (λ report. IsReported (course.Unloaded stop) report.status report.text.items) }
    ensures err { IfErr result (λ halt. IsReported (course.Unloaded stop) (status_of_halt halt) (text_of_halt halt)) }
{
    match stop {
        PoolStop::Fault(fault) => match bad_input_line(alloc, &fault) {
            Ok(text) => Ok(Report {
                status: Status::BadInput {
                    place: fault.place,
                    kind: fault.kind,
                },
                text,
            }),
            Err(AllocError) => Err(Halt::OutOfMemory),
        },
        PoolStop::TooLong => Err(Halt::LongPool),
        PoolStop::ShelfFault => Err(Halt::ShelfFault),
        PoolStop::OutOfMemory => Err(Halt::OutOfMemory),
    }
}

/// Of a session that is over.
fn outcome_report(alloc: Global, outcome: Outcome) -> Result<Report, Halt>
    ensures ok { IfOk result (λ report. IsReported (course.Over outcome) report.status report.text.items) }
    ensures err { IfErr result (λ halt. IsReported (course.Over outcome) (status_of_halt halt) (text_of_halt halt)) }
{
    match outcome {
        Outcome::Saved(text) => Ok(Report {
            status: Status::Ok,
            text,
        }),
        Outcome::Unsaved => Err(Halt::ShelfFault),
        Outcome::Ended(end) => end_report(alloc, end),
    }
}

/// Of a session that isn't done.
fn end_report(alloc: Global, end: SessionEnd) -> Result<Report, Halt>
    ensures ok { IfOk result (λ report. IsReported (course.Over (outcome.Ended end)) report.status report.text.items) }
    ensures err { IfErr result (λ halt. IsReported (course.Over (outcome.Ended end)) (status_of_halt halt) (text_of_halt halt)) }
{
    match end {
        SessionEnd::Done => Ok(Report {
            status: Status::Ok,
            text: Vec::new(alloc),
        }),
        SessionEnd::Refused(end) => spelled(Status::Refused(end), refused_line(alloc, &end)),
        SessionEnd::Truncated(phase) => {
            spelled(Status::Truncated(phase), truncated_line(alloc, phase))
        }
        SessionEnd::LinkFault => Err(Halt::LinkFault),
        SessionEnd::SessionLimit => Err(Halt::LongSession),
        SessionEnd::OutOfMemory => Err(Halt::OutOfMemory),
    }
}

/// A report with this status, where memory sufficed for its text.
fn spelled(status: Status, text: Result<Vec<u8>, OutOfMemory>) -> Result<Report, Halt>
    ensures ok { IfOk result (λ report. (report.status ≡ status) × (text ≡ Ok report.text)) }
    ensures err { IfErr result (λ halt. halt ≡ Halt.OutOfMemory) }
{
    match text {
        Ok(text) => Ok(Report { status, text }),
        Err(OutOfMemory) => Err(Halt::OutOfMemory),
    }
}

/// The line of a node that ended.
fn refused_line(alloc: Global, end: &End) -> Result<Vec<u8>, OutOfMemory>
    ensures { IfOk result (λ text. text.items ≡ text_of_end (session_end.Refused end.now)) }
{
    let mut text = refused_text(alloc, end)?;
    text.push(b'\n')?;
    Ok(text)
}

/// The line of an input that ended too early.
fn truncated_line(alloc: Global, phase: Phase) -> Result<Vec<u8>, OutOfMemory>
    ensures { IfOk result (λ text. text.items ≡ text_of_end (session_end.Truncated phase)) }
{
    let mut text = truncated_text(alloc, phase)?;
    text.push(b'\n')?;
    Ok(text)
}
