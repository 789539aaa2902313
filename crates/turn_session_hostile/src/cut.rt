//! The calls of a run on a new session, whose streams come in other pieces: the same payloads, events and packets.
//!
//! What comes over a data connection is passed in whole: a session does not cut it.

ghost use Rattle.std.specs.Prelude.{◌≤◌, ◌^◌};

use crate::setup::new_session;
use crate::trace::{Trace, call_of};
use std::alloc::Global;
use turn_client_api::{TurnClientApi, TurnRecvRet};
use turn_hostile_net::cuts::{Cut, Cuts, Payloads};
use turn_hostile_net::fault::{Fault, expect};
use turn_hostile_net::world::local;
use turn_session::session::Session;
use turn_session_lines::call::SessionCall;
use turn_session_lines::print::answer_text;
use turn_session_lines::reply::reply_to;
use turn_stun::data::Data;
use turn_stun::instant::Instant;
use turn_stun::transport::Transmit;

/// More pieces, and more payloads, than there are at once here.
const MANY: u32 = 4_096;

/// What comes of a run whose streams are cut.
#[derive(Drop)]
struct CutRun {
    alloc: Global,
    cuts: Cuts,
    payloads: Payloads,
    /// The answers of all calls but those that pass bytes in, and what they were before.
    answers: String,
    before: String,
}

/// The same payloads come and the same answers are given if the streams of this trace come in other pieces: byte by byte, or cut at
/// drawn places. The peers' bytes are streams too, or not.
///
/// # Errors
///
/// `Wrong` if others are, and `OutOfMemory` if memory allocation fails.
pub fn same_when_cut(
    alloc: Global,
    head: &str,
    seed: u64,
    is_stream: bool,
    trace: &Trace,
) -> Result<(), Fault> {
    let cut = if seed % 2 == 0 {
        Cut::Bytes
    } else {
        Cut::Drawn
    };
    let mut run = CutRun {
        alloc,
        cuts: Cuts::new(cut, seed),
        payloads: Payloads::new(alloc, is_stream),
        answers: String::new(alloc),
        before: String::new(alloc),
    };
    let mut session = new_session(alloc, head)?;
    let done = run.make_all(&mut session, trace);
    drop(session);
    done?;
    expect(
        run.payloads.bytes.as_slice() == trace.payloads.bytes.as_slice(),
        "a stream in other pieces has other payloads",
    )?;
    expect(
        run.answers.as_str() == run.before.as_str(),
        "a session whose stream comes in other pieces has other answers",
    )
}

impl CutRun {
    /// Makes the calls of a trace, in pieces where they pass bytes in.
    fn make_all<C: TurnClientApi>(
        &mut self,
        session: &mut Session<C>,
        trace: &Trace,
    ) -> Result<(), Fault> {
        let (lines, answers) = (trace.lines.as_str(), trace.answers.as_str());
        for (line, answer) in lines.lines().zip(answers.lines()) {
            self.make(session, line, answer)?;
        }
        Ok(())
    }

    /// Makes the call of this line, which was answered so before.
    fn make<C: TurnClientApi>(
        &mut self,
        session: &mut Session<C>,
        line: &str,
        before: &str,
    ) -> Result<(), Fault> {
        match call_of(self.alloc, line.as_bytes())? {
            SessionCall::Recv { transmit, now } => {
                if transmit.to == local() {
                    self.pass_in(session, &transmit, now)
                } else {
                    self.pass_piece(session, piece_of(&transmit), now)
                }
            }
            SessionCall::PollRecv { .. } => Ok(()),
            call => {
                let reply = reply_to(self.alloc, session, call)?;
                let answer = answer_text(self.alloc, &reply)?;
                self.answers.push_str(answer.as_str())?;
                self.before.push_str(before)?;
                Ok(self.before.push('\n')?)
            }
        }
    }

    /// Passes bytes in, piece by piece.
    fn pass_in<C: TurnClientApi>(
        &mut self,
        session: &mut Session<C>,
        packet: &Transmit<Data>,
        now: Instant,
    ) -> Result<(), Fault>
        requires { now ≤ 2 ^ 62 }
    {
        let mut rest = packet.payload.as_bytes();
        for _ in 0..MANY {
            let (piece, after) = rest.split_at(self.cuts.next(rest.len()));
            let piece = Transmit::new(piece, packet.transport, packet.from, packet.to);
            self.pass_piece(session, piece, now)?;
            if after.is_empty() {
                break;
            }
            rest = after;
        }
        Ok(())
    }

    /// Passes a piece in, and takes all payloads that the session then holds.
    fn pass_piece<C: TurnClientApi>(
        &mut self,
        session: &mut Session<C>,
        piece: Transmit<&[u8]>,
        now: Instant,
    ) -> Result<(), Fault>
        requires { now ≤ 2 ^ 62 }
    {
        if let TurnRecvRet::PeerData(given) = session.recv(piece, now)? {
            self.payloads.note(given.peer, given.data())?;
        }
        for _ in 0..MANY {
            match session.poll_recv(now)? {
                Some(given) => self.payloads.note(given.peer, given.data())?,
                None => break,
            }
        }
        Ok(())
    }
}

/// A whole packet as one piece.
fn piece_of(packet: &Transmit<Data>) -> Transmit<&[u8]> {
    Transmit::new(
        packet.payload.as_bytes(),
        packet.transport,
        packet.from,
        packet.to,
    )
}
