//! The lines of a run: its head, and each call with its answer (`docs/rattle/LINES.md`).
//!
//! After each call that sends no data, what is active is looked at: the relayed addresses and their permissions. After a
//! `poll` that has the caller wait, nothing may be due just before that time. Such looks change nothing.

ghost use Rattle.std.specs.Prelude.{◌≤◌};

use crate::session::{call_of, head_line, head_of, made};
use crate::words::permissions_words;
use std::alloc::Global;
use std::slice;
use turn_client_api::{Call, TurnClientApi, TurnPollRet};
use turn_client_calls::Reply;
use turn_hostile_net::cuts::{Cut, Cuts};
use turn_hostile_net::fault::Fault;
use turn_hostile_net::words::recv_words;
use turn_hostile_net::world::Kind;
use turn_line_client::client::new_client;
use turn_lines::print::answers_text;
use turn_stun::data::Data;
use turn_stun::instant::Instant;
use turn_stun::transport::Transmit;
use turn_types::TransportType;

/// More pieces, and more payloads, than there are at once here.
const MANY: u32 = 4_096;

/// The lines of a run.
#[derive(Drop)]
struct Lines {
    alloc: Global,
    kind: Kind,
    text: String,
    /// Where streams are cut, if they are.
    cuts: Option<Cuts>,
}

/// The lines of the calls of a trace, made on a new client of this kind.
///
/// # Errors
///
/// `Wrong` if a line is no call, and `OutOfMemory` if memory allocation fails.
pub fn run_text(alloc: Global, kind: Kind, seed: u64, trace: &str) -> Result<String, Fault> {
    text_with(alloc, kind, seed, trace, None)
}

/// The same with the streams of the run in other pieces, each of them followed by `poll_recv` until that returns nothing.
///
/// # Errors
///
/// `Wrong` if a line is no call, and `OutOfMemory` if memory allocation fails.
pub fn cut_text(alloc: Global, kind: Kind, seed: u64, trace: &str) -> Result<String, Fault> {
    text_with(alloc, kind, seed, trace, Some(Cuts::new(Cut::Drawn, seed)))
}

fn text_with(
    alloc: Global,
    kind: Kind,
    seed: u64,
    trace: &str,
    cuts: Option<Cuts>,
) -> Result<String, Fault> {
    let mut lines = Lines {
        alloc,
        kind,
        text: head_line(alloc, kind, seed)?,
        cuts,
    };
    lines.text.push('\n')?;
    let head = head_of(alloc, kind, seed)?;
    let mut client = new_client(alloc, head)?;
    let text = text_through(&mut client, trace, lines);
    drop(client);
    text
}

fn text_through<C: TurnClientApi>(
    client: &mut C,
    trace: &str,
    mut lines: Lines,
) -> Result<String, Fault> {
    for line in trace.lines() {
        lines.call(client, line)?;
    }
    Ok(lines.text)
}

impl Lines {
    /// Makes the call of this line, in pieces if streams are cut and it passes bytes in, and looks at the client then.
    fn call<C: TurnClientApi>(&mut self, client: &mut C, line: &str) -> Result<(), Fault> {
        let call = call_of(self.alloc, line.as_bytes())?;
        match (&call, &self.cuts) {
            (Call::PollRecv { .. }, Some(_)) => Ok(()),
            (Call::Recv { transmit, now }, Some(_)) => self.pass_in(client, transmit, *now),
            (Call::SendTo { .. }, _) => {
                self.make(client, line)?;
                Ok(())
            }
            _ => {
                let reply = self.make(client, line)?;
                self.look(client, line, &reply)
            }
        }
    }

    /// Makes the call of this line, and keeps both lines.
    fn make<C: TurnClientApi>(&mut self, client: &mut C, line: &str) -> Result<Reply, Fault> {
        self.text.push_str(line)?;
        self.text.push('\n')?;
        let reply = made(self.alloc, client, line.as_bytes())?;
        let answer = answers_text(self.alloc, slice::from_ref(&reply))?;
        self.text.push_str(answer.as_str())?;
        Ok(reply)
    }

    /// Makes a call at this time.
    fn make_at<C: TurnClientApi>(
        &mut self,
        client: &mut C,
        now: u64,
        words: &str,
    ) -> Result<Reply, Fault> {
        let line = format!(in self.alloc; "{now} {words}")?;
        self.make(client, line.as_str())
    }

    /// Looks at the client after a call.
    fn look<C: TurnClientApi>(
        &mut self,
        client: &mut C,
        line: &str,
        reply: &Reply,
    ) -> Result<(), Fault> {
        let now = time_of(line);
        if let Reply::RelayedAddresses(all) = self.make_at(client, now, "relayed")? {
            for (transport, relayed) in all.as_slice() {
                let words = permissions_words(self.alloc, *transport, *relayed)?;
                self.make_at(client, now, words.as_str())?;
            }
        }
        if let Reply::Poll(TurnPollRet::WaitUntil(until)) = reply {
            let until = until.as_nanos();
            if until > now {
                let last = until.saturating_sub(1);
                self.make_at(client, last, "transmit")?;
                self.make_at(client, last, "event")?;
            }
        }
        Ok(())
    }
}

/// The time of a call, by its line.
fn time_of(line: &str) -> u64 {
    let (time, _) = line.split_once(' ').unwrap_or((line, ""));
    time.parse::<u64>().unwrap_or(0)
}

impl Lines {
    /// Passes bytes in, piece by piece.
    fn pass_in<C: TurnClientApi>(
        &mut self,
        client: &mut C,
        packet: &Transmit<Data>,
        now: Instant,
    ) -> Result<(), Fault> {
        let mut rest = packet.payload.as_bytes();
        for _ in 0..MANY {
            let (piece, after) = rest.split_at(self.next_cut(rest.len()));
            let transport = self.kind.transport;
            let words = recv_words(self.alloc, transport, packet.from, packet.to, piece)?;
            self.make_at(client, now.as_nanos(), words.as_str())?;
            self.drain(client, now.as_nanos())?;
            if after.is_empty() {
                break;
            }
            rest = after;
        }
        Ok(())
    }

    /// Takes all payloads that the client holds.
    fn drain<C: TurnClientApi>(&mut self, client: &mut C, now: u64) -> Result<(), Fault> {
        for _ in 0..MANY {
            let reply = self.make_at(client, now, "poll_recv")?;
            if !matches!(reply, Reply::PeerData(_)) {
                break;
            }
        }
        Ok(())
    }

    /// The length of the next piece of so many bytes.
    fn next_cut(&mut self, len: usize) -> usize
        ensures { result ≤ len }
    {
        match &mut self.cuts {
            Some(cuts) => cuts.next(len),
            None => len,
        }
    }
}
