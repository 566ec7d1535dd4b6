//! The program over what its process has: arguments, streams, network, files, clock and random source.
#![tactic(auto)]

#[cfg(test)]
mod process_tests;
#[cfg(test)]
mod script_tests;
#[cfg(test)]
mod tests;

use erlay_base::{DirShelf, StdSink, StdSource, TcpWire};
use erlay_cli::{Chance, exit_code, stopped};
use rand::rngs::StdRng;
use rand_core::Rng;
use std::process::ExitCode;
use std::random::RandomSource;
use std::rt::{Clock, Env};
use std::time::SystemTime;
use std::{env, io};

/// The arguments of the process, where all of them are text.
fn arguments_of<R: Env + AllocGlobal>(rt: &R) -> io::Result<Vec<String>> {
    let mut arguments = Vec::new(rt.alloc());
    for argument in env::args(rt)? {
        arguments.push(argument)?;
    }
    Ok(arguments)
}

/// A salt and a nonce from the system's random source, and the time of its clock.
fn chance_of<R: RandomSource + Clock>(rt: &R) -> io::Result<Chance> {
    let mut rng: StdRng = rand::make_rng(rt)?;
    let time = SystemTime::now(rt)?
        .duration_since(SystemTime::UNIX_EPOCH)
        .map_or(0, |since| since.as_secs());
    Ok(Chance {
        salt: rng.next_u64(),
        nonce: rng.next_u64(),
        time: i64::try_from(time).unwrap_or(i64::MAX),
    })
}

/// Runs the program over its standard streams, TCP and files, and answers its exit code. Where the system gives no random
/// bytes or no time, it ends as for want of memory.
fn code_of(rt: &HostRuntime, arguments: io::Result<Vec<String>>) -> u8 {
    let mut input = StdSource::new(rt.reader());
    let mut output = StdSink::new(io::writer(rt));
    let mut wire = TcpWire::new(rt);
    let mut shelf = DirShelf::new(rt);
    let Ok(chance) = chance_of(rt) else {
        return stopped(&mut output).code();
    };
    exit_code(
        rt.alloc(),
        arguments,
        chance,
        &mut input,
        &mut output,
        &mut wire,
        &mut shelf,
    )
}

/// Runs the program with the arguments of its process.
pub fn start(rt: HostRuntime) -> ExitCode {
    ExitCode::from(code_of(&rt, arguments_of(&rt)))
}
