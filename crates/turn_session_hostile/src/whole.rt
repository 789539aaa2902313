//! A whole run: drawn calls, and then the same calls again.

use crate::again::same_with_polls;
use crate::counts::Counts;
use crate::cut::same_when_cut;
use crate::drive::Drive;
use crate::setup::{Setup, new_session};
use std::alloc::Global;
use turn_client_api::TurnClientApi;
use turn_hostile_net::fault::Fault;
use turn_hostile_net::world::Kind;
use turn_session::session::Session;
use turn_types::TransportType;

/// The least number of calls of a run whose session does not end before.
const CALLS: u64 = 600;

/// More steps than any run needs.
const STEPS: u64 = 4_000;

/// The run of this seed.
///
/// # Errors
///
/// `Wrong` if the session does what it may not do, and `OutOfMemory` if memory allocation fails.
pub fn whole_run(alloc: Global, kind: Kind, seed: u64) -> Result<Counts, Fault> {
    let setup = Setup::new(seed);
    let head = setup.head_line(alloc, kind, seed)?;
    let (drive, done) = driven(alloc, kind, setup, head.as_str(), seed)?;
    done?;
    same_with_polls(alloc, head.as_str(), &drive.trace)?;
    if kind.transport == TransportType::Tcp {
        let is_stream = kind.relays == TransportType::Tcp;
        same_when_cut(alloc, head.as_str(), seed, is_stream, &drive.trace)?;
    }
    let mut counts = drive.counts;
    counts.runs = 1;
    counts.calls = drive.trace.calls;
    Ok(counts)
}

/// The lines of the run of this seed: its head, and each call that was made, up to the first that goes wrong.
///
/// # Errors
///
/// `OutOfMemory` if memory allocation fails.
pub fn run_lines(alloc: Global, kind: Kind, seed: u64) -> Result<String, Fault> {
    let setup = Setup::new(seed);
    let mut text = setup.head_line(alloc, kind, seed)?;
    let (drive, _done) = driven(alloc, kind, setup, text.as_str(), seed)?;
    text.push('\n')?;
    text.push_str(drive.trace.lines.as_str())?;
    Ok(text)
}

/// The drawn calls of this seed on a new session, and whether something went wrong.
fn driven(
    alloc: Global,
    kind: Kind,
    setup: Setup,
    head: &str,
    seed: u64,
) -> Result<(Drive, Result<(), Fault>), Fault> {
    let mut session = new_session(alloc, head)?;
    let mut drive = Drive::new(alloc, kind, setup, seed)?;
    let done = drive_through(&mut drive, &mut session);
    drop(session);
    Ok((drive, done))
}

fn drive_through<C: TurnClientApi>(
    drive: &mut Drive,
    session: &mut Session<C>,
) -> Result<(), Fault> {
    for _ in 0..STEPS {
        if drive.trace.calls >= CALLS || drive.is_done() {
            break;
        }
        drive.step(session)?;
    }
    Ok(())
}
