//! Drawn runs of a session against a hostile network and an unsteady server.
//!
//! ```text
//!  drawn calls --> session <-- Network: forges, repeats, delays and drops what the server signs
//!      |              |          ^
//!      |              |          +-- Server: answers, is silent, has lost the allocation, has another password, refuses
//!      +--> rules <---+
//! ```
//!
//! The calls are lines of a session (`turn_session_lines`). The rules are checked from outside: each ticket has one outcome, and has it
//! when nothing that was sent for it is awaited any more; nothing is granted that the server did not grant; a grant that has
//! ended is reported; while eight requests are queued the caller's next one waits; the session leaves in time, has one cause to
//! end, and nothing follows its end; it is not polled without an end; and data of a permitted peer is returned as it was sent.
//! Then the calls are made on a new session, which is polled earlier than it has asked for: it has the same answers. A run over TCP is
//! repeated with its streams in other pieces. The program prints a line for each kind of run, and for the first run that goes
//! wrong its seed and what went wrong, and ends with status 1.
//!
//! The counts in the file `stdout` are the program's own: they say that the runs are still the same, so that a change
//! which stops the network's hostility is seen. What is right is decided by the rules alone. From the crate's folder
//!
//! ```text
//! rt run
//! rt try -- lines 7
//! ```
//!
//! The second prints the lines of the run with this seed, for `turn_session_live`, up to the first call that goes wrong. Begin with
//! [`whole_run`](whole::whole_run).
#![tactic(auto)]

mod acts;
mod again;
mod answered;
mod counts;
mod cut;
mod drive;
mod ending;
mod grants;
mod own;
mod sends;
mod server;
mod setup;
mod tickets;
mod trace;
mod whole;
mod words;

use counts::Counts;
use std::alloc::Global;
use std::process::ExitCode;
use std::{env, io};
use turn_hostile_net::fault::Fault;
use turn_hostile_net::world::{KINDS, Kind, NAMES};
use whole::{run_lines, whole_run};

/// The number of runs.
const SEEDS: u64 = 306;

fn main(rt: HostRuntime) -> ExitCode {
    match answer(&rt, rt.alloc()) {
        Ok(true) => ExitCode::SUCCESS,
        _ => ExitCode::FAILURE,
    }
}

/// Makes all runs and judges them, or after the words `lines SEED` prints the lines of one. Returns whether nothing went
/// wrong.
fn answer(rt: &(impl Print + env::Env + Alloc<A = Global>), alloc: Global) -> io::Result<bool> {
    let mut words = env::args(rt)?;
    words.next();
    let (Some(word), Some(seed)) = (words.next(), words.next()) else {
        return print_runs(rt, alloc);
    };
    match seed.as_str().parse::<u64>() {
        Ok(seed) if word.as_str() == "lines" => print_lines(rt, alloc, seed),
        Ok(seed) if word.as_str() == "run" => print_run(rt, alloc, seed),
        _ => Ok(false),
    }
}

/// Makes the run of this seed, and prints what it did or what went wrong.
fn print_run(rt: &impl Print, alloc: Global, seed: u64) -> io::Result<bool> {
    let Some(kind) = KINDS.get((seed % 9) as usize) else {
        return Ok(false);
    };
    match whole_run(alloc, *kind, seed) {
        Ok(counts) => {
            println!(rt; "seed {seed}: {counts}")?;
            Ok(true)
        }
        Err(fault) => {
            print_fault(rt, seed, fault)?;
            Ok(false)
        }
    }
}

/// Prints the lines of the run of this seed.
fn print_lines(rt: &impl Print, alloc: Global, seed: u64) -> io::Result<bool> {
    let Some(kind) = KINDS.get((seed % 9) as usize) else {
        return Ok(false);
    };
    match run_lines(alloc, *kind, seed) {
        Ok(text) => {
            print!(rt; "{text}")?;
            Ok(true)
        }
        Err(fault) => {
            print_fault(rt, seed, fault)?;
            Ok(false)
        }
    }
}

/// Makes the runs of each kind, and prints its line. Returns whether nothing went wrong.
fn print_runs(rt: &impl Print, alloc: Global) -> io::Result<bool> {
    for (number, (kind, name)) in KINDS.iter().zip(NAMES.iter()).enumerate() {
        if !print_kind(rt, alloc, *kind, name, number as u64)? {
            return Ok(false);
        }
    }
    Ok(true)
}

/// Makes the runs of a kind, and prints its line or what went wrong.
fn print_kind(
    rt: &impl Print,
    alloc: Global,
    kind: Kind,
    name: &str,
    number: u64,
) -> io::Result<bool> {
    let mut counts = Counts::default();
    for seed in 0..SEEDS {
        if seed % 9 == number {
            match whole_run(alloc, kind, seed) {
                Ok(more) => counts = counts.plus(more),
                Err(fault) => {
                    print_fault(rt, seed, fault)?;
                    return Ok(false);
                }
            }
        }
    }
    println!(rt; "{name}: {counts}")?;
    Ok(true)
}

fn print_fault(rt: &impl Print, seed: u64, fault: Fault) -> io::Result<()> {
    match fault {
        Fault::Wrong(wrong) => println!(rt; "seed {seed}: {wrong}"),
        Fault::OutOfMemory => println!(rt; "seed {seed}: no memory"),
    }
}
