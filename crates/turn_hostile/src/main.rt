//! A thousand drawn runs of a client against a hostile network.
//!
//! ```text
//!  drawn calls --> client <-- Network: forges, repeats, delays and drops what the server signs
//!      |             |
//!      +-> Model <---+        knows what signed responses came through, and so what may be active
//! ```
//!
//! The calls are lines of a trace (`docs/rattle/LINES.md`). After each one, the relayed addresses and permissions in use have to
//! be among what the model allows, and no two peers may have one channel number. In the end the trace is read again and its
//! calls are made on a new client: they have the same answers. A run over TCP is repeated with its streams in other pieces.
//! The program prints a line for each kind of run, and for the first run that goes wrong its seed and what went wrong, and
//! ends with status 1.
//!
//! The counts in the file `stdout` are the program's own: they say that the runs are still the same, so that a change
//! which stops the network's hostility is seen. What is right is decided by the model alone. From the crate's folder
//!
//! ```text
//! rt run
//! rt try -- lines 7
//! ```
//!
//! The second prints the lines of the run with this seed, each call followed by its answer, and judges nothing: that is what
//! `tools/mutate/try-edits --by checker` reads. There challenges flood the client at the end, or time passes in silence, and the lines of a run over
//! TCP are followed by those of the same calls with the streams in other pieces. Begin with [`whole_run`](whole::whole_run).
#![tactic(auto)]

mod acts;
mod cuts;
mod drive;
mod lines;
mod looks;
mod numbers;
mod outcome;
mod session;
mod whole;
mod words;

use std::alloc::Global;
use std::process::ExitCode;
use std::{env, io};
use turn_hostile_net::fault::Fault;
use turn_hostile_net::world::{KINDS, Kind, NAMES};
use whole::{Counts, run_lines, whole_run};

/// The number of runs.
const SEEDS: u64 = 1_000;

fn main(rt: HostRuntime) -> ExitCode {
    match answer(&rt, rt.alloc()) {
        Ok(true) => ExitCode::SUCCESS,
        _ => ExitCode::FAILURE,
    }
}

/// Makes all runs and judges them, or after the words `lines SEED` prints the lines of one. Returns whether nothing went
/// wrong.
fn answer(rt: &(impl Print + env::Env + Alloc<A = Global>), alloc: Global) -> io::Result<bool> {
    let mut words = env::args(rt)?;
    words.next();
    let (Some(word), Some(seed)) = (words.next(), words.next()) else {
        return print_runs(rt, alloc);
    };
    match seed.as_str().parse::<u64>() {
        Ok(seed) if word.as_str() == "lines" => print_lines(rt, alloc, seed),
        _ => Ok(false),
    }
}

/// Prints the lines of the run of this seed.
fn print_lines(rt: &impl Print, alloc: Global, seed: u64) -> io::Result<bool> {
    let Some(kind) = KINDS.get((seed % 9) as usize) else {
        return Ok(false);
    };
    match run_lines(alloc, *kind, seed) {
        Ok(text) => {
            print!(rt; "{text}")?;
            Ok(true)
        }
        Err(fault) => {
            print_fault(rt, seed, fault)?;
            Ok(false)
        }
    }
}

/// Makes the runs of each kind, and prints its line. Returns whether nothing went wrong.
fn print_runs(rt: &impl Print, alloc: Global) -> io::Result<bool> {
    for (number, (kind, name)) in KINDS.iter().zip(NAMES.iter()).enumerate() {
        if !print_kind(rt, alloc, *kind, name, number as u64)? {
            return Ok(false);
        }
    }
    Ok(true)
}

/// Makes the runs of a kind, and prints its line or what went wrong.
fn print_kind(
    rt: &impl Print,
    alloc: Global,
    kind: Kind,
    name: &str,
    number: u64,
) -> io::Result<bool> {
    let mut counts = Counts::default();
    for seed in 0..SEEDS {
        if seed % 9 == number {
            match whole_run(alloc, kind, seed) {
                Ok(more) => counts = counts.plus(more),
                Err(fault) => {
                    print_fault(rt, seed, fault)?;
                    return Ok(false);
                }
            }
        }
    }
    print_counts(rt, name, counts)?;
    Ok(true)
}

fn print_counts(rt: &impl Print, name: &str, counts: Counts) -> io::Result<()> {
    let Counts {
        runs,
        calls,
        forged,
        grants,
        payloads,
    } = counts;
    println!(rt;
        "{name}: {runs} runs, {calls} calls, {forged} replies forged, {grants} grants, {payloads} payloads"
    )
}

fn print_fault(rt: &impl Print, seed: u64, fault: Fault) -> io::Result<()> {
    match fault {
        Fault::Wrong(wrong) => println!(rt; "seed {seed}: {wrong}"),
        Fault::OutOfMemory => println!(rt; "seed {seed}: no memory"),
    }
}
