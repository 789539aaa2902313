//! A whole run: drawn calls, and then the same calls again.

use crate::cuts::same_payloads;
use crate::drive::Drive;
use crate::lines::{cut_text, run_text};
use crate::session::{head_of, replayed};
use std::alloc::Global;
use turn_client_api::TurnClientApi;
use turn_hostile_net::fault::{Fault, expect};
use turn_hostile_net::world::Kind;
use turn_line_client::client::new_client;
use turn_types::TransportType;

/// The least number of calls of a run.
const CALLS: u64 = 240;

/// More steps than any run needs.
const STEPS: u64 = 2_000;

/// What the runs of one kind did.
#[derive(Clone, Copy, Default)]
pub struct Counts {
    /// The runs.
    pub runs: u64,
    /// The calls in them, without those that are repeated.
    pub calls: u64,
    /// The responses that were forged, repeated or spoilt.
    pub forged: u64,
    /// The grants that came through.
    pub grants: u64,
    /// The payloads of peers that were received.
    pub payloads: u64,
}

impl Counts {
    /// The sum of both.
    pub fn plus(self, other: Counts) -> Counts {
        Counts {
            runs: self.runs.saturating_add(other.runs),
            calls: self.calls.saturating_add(other.calls),
            forged: self.forged.saturating_add(other.forged),
            grants: self.grants.saturating_add(other.grants),
            payloads: self.payloads.saturating_add(other.payloads),
        }
    }
}

/// The run of this seed.
///
/// # Errors
///
/// `Wrong` if the client does what it may not do, and `OutOfMemory` if memory allocation fails.
pub fn whole_run(alloc: Global, kind: Kind, seed: u64) -> Result<Counts, Fault> {
    let drive = driven(alloc, kind, seed)?;
    let session = &drive.session;
    let (trace, answers) = (session.trace.as_str(), session.answers.as_str());
    repeat(alloc, kind, seed, trace, answers)?;
    Ok(Counts {
        runs: 1,
        calls: session.calls,
        forged: drive.network.forged,
        grants: drive.model.grants,
        payloads: drive.payloads,
    })
}

/// The drawn calls of this seed on a new client.
fn driven(alloc: Global, kind: Kind, seed: u64) -> Result<Drive, Fault> {
    let head = head_of(alloc, kind, seed)?;
    let mut client = new_client(alloc, head)?;
    let drive = drive_through(alloc, kind, seed, &mut client);
    drop(client);
    drive
}

/// The lines of the run of this seed, whose calls are not judged, with an end that no other run has. Over TCP those of the
/// same calls with its streams in other pieces follow.
///
/// # Errors
///
/// `OutOfMemory` if memory allocation fails.
pub fn run_lines(alloc: Global, kind: Kind, seed: u64) -> Result<String, Fault> {
    let head = head_of(alloc, kind, seed)?;
    let mut client = new_client(alloc, head)?;
    let drive = drive_on(alloc, kind, seed, &mut client);
    drop(client);
    let drive = drive?;
    let trace = drive.session.trace.as_str();
    let mut text = run_text(alloc, kind, seed, trace)?;
    if kind.transport == TransportType::Tcp {
        text.push_str(cut_text(alloc, kind, seed, trace)?.as_str())?;
    }
    Ok(text)
}

/// The drawn calls of this seed and their end, whatever the client does wrong.
fn drive_on<C: TurnClientApi>(
    alloc: Global,
    kind: Kind,
    seed: u64,
    client: &mut C,
) -> Result<Drive, Fault> {
    let mut drive = Drive::new(alloc, kind, seed)?;
    for _ in 0..STEPS {
        if drive.session.calls >= CALLS {
            break;
        }
        unless_wrong(drive.step(client))?;
    }
    unless_wrong(drive.end(client))?;
    Ok(drive)
}

/// What the client does wrong is seen in the lines.
fn unless_wrong(done: Result<(), Fault>) -> Result<(), Fault> {
    match done {
        Err(Fault::Wrong(_)) => Ok(()),
        _ => done,
    }
}

fn drive_through<C: TurnClientApi>(
    alloc: Global,
    kind: Kind,
    seed: u64,
    client: &mut C,
) -> Result<Drive, Fault> {
    let mut drive = Drive::new(alloc, kind, seed)?;
    for _ in 0..STEPS {
        if drive.session.calls >= CALLS {
            break;
        }
        drive.step(client)?;
    }
    Ok(drive)
}

/// The calls of a trace have these answers on a new client, and the same payloads come however its streams are cut.
fn repeat(alloc: Global, kind: Kind, seed: u64, trace: &str, answers: &str) -> Result<(), Fault> {
    let again = replayed(alloc, kind, seed, trace)?;
    expect(again.as_str() == answers, "a replay has other answers")?;
    if kind.transport == TransportType::Tcp {
        same_payloads(alloc, kind, seed, trace)?;
    }
    Ok(())
}
