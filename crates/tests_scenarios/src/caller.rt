//! A caller with its own clock: it polls, sends due packets, passes input in, and sleeps until the wake-up time.

use crate::fixture::{at, local, server};
use crate::server::{Rule, Server};
use std::alloc::{AllocError, Global};
use turn_client_api::{TurnClientApi, TurnEvent, TurnPollRet, TurnRecvRet};
use turn_stun::data::Data;
use turn_stun::transport::Transmit;

/// The time from a request to its response, in milliseconds, unless the link is slow.
const DELAY: u32 = 20;

/// More than a client ever sends or reports at once here.
const MANY: u32 = 16_384;

/// A caller's clock, and the packets on their way to it.
#[derive(Drop)]
pub(crate) struct Caller {
    pub(crate) server: Server,
    /// Milliseconds since the start.
    now: u32,
    /// The time from a request to its response, in milliseconds.
    delay: u32,
    /// The server's responses, each with its time of arrival.
    coming: Vec<(u32, Vec<u8>)>,
    /// How many of these have arrived.
    came: usize,
    /// The client's first event, with the time at which it was reported.
    pub(crate) first_event: Option<(u32, TurnEvent)>,
    /// How many packets the client sent.
    pub(crate) sent: u32,
    /// How many responses the client ignored.
    pub(crate) ignored: u32,
    /// Whether the client has ended.
    pub(crate) has_ended: bool,
}

impl Caller {
    pub(crate) fn new(alloc: Global) -> Caller {
        Caller::over_slow_link(alloc, DELAY)
    }

    /// A caller whose requests are answered after this many milliseconds.
    pub(crate) fn over_slow_link(alloc: Global, delay: u32) -> Caller {
        Caller {
            server: Server::new(alloc),
            now: 0,
            delay,
            coming: Vec::new(alloc),
            came: 0,
            first_event: None,
            sent: 0,
            ignored: 0,
            has_ended: false,
        }
    }

    /// Runs the loop up to this time, and sleeps between its iterations.
    pub(crate) fn wait<C: TurnClientApi>(
        &mut self,
        client: &mut C,
        rules: &[Rule<'_>],
        time: u32,
    ) -> Result<(), AllocError> {
        for _ in 0..MANY {
            let until = self.iterate(client, rules)?;
            if self.has_ended || until > time {
                break;
            }
            self.now = until;
        }
        self.now = time;
        Ok(())
    }

    /// Runs one iteration of the loop, at the current time, and returns the time until which nothing is due.
    fn iterate<C: TurnClientApi>(
        &mut self,
        client: &mut C,
        rules: &[Rule<'_>],
    ) -> Result<u32, AllocError> {
        self.receive(client)?;
        self.send(client, rules)?;
        self.draw_events(client);
        let wait = self.poll(client)?;
        let until = match self.coming.as_slice().get(self.came) {
            Some((comes, _)) => wait.min(*comes),
            None => wait,
        };
        Ok(until.max(self.now))
    }

    /// The wake-up time that the client returns.
    fn poll<C: TurnClientApi>(&mut self, client: &mut C) -> Result<u32, AllocError> {
        match client.poll(at(self.now))? {
            TurnPollRet::WaitUntil(time) => {
                // A caller with a clock of milliseconds rounds up.
                let millis = time.as_nanos().div_ceil(1_000_000);
                Ok(u32::try_from(millis).unwrap_or(u32::MAX))
            }
            _ => {
                self.has_ended = true;
                Ok(u32::MAX)
            }
        }
    }

    /// Passes in the packets that have arrived.
    fn receive<C: TurnClientApi>(&mut self, client: &mut C) -> Result<(), AllocError> {
        let first = self.came;
        for (comes, bytes) in self.coming.as_slice().iter().skip(first) {
            if *comes > self.now {
                break;
            }
            let packet = Transmit::new(bytes.as_slice(), client.transport(), server(), local());
            if let TurnRecvRet::Ignored(_) = client.recv(packet, at(self.now))? {
                self.ignored = self.ignored.saturating_add(1);
            }
            self.came = self.came.saturating_add(1);
        }
        Ok(())
    }

    /// Sends the due packets.
    fn send<C: TurnClientApi>(
        &mut self,
        client: &mut C,
        rules: &[Rule<'_>],
    ) -> Result<(), AllocError> {
        for _ in 0..MANY {
            match client.poll_transmit(at(self.now))? {
                Some(packet) => self.carry(&packet, rules)?,
                None => break,
            }
        }
        Ok(())
    }

    /// Takes a packet to the server, whose response is then on its way.
    fn carry(&mut self, packet: &Transmit<Data>, rules: &[Rule<'_>]) -> Result<(), AllocError> {
        self.sent = self.sent.saturating_add(1);
        match self.server.answer(rules, packet.payload.as_bytes())? {
            Some(answer) => self
                .coming
                .push((self.now.saturating_add(self.delay), answer))?,
            None => {}
        }
        Ok(())
    }

    /// Reads the client's events.
    fn draw_events<C: TurnClientApi>(&mut self, client: &mut C) {
        for _ in 0..MANY {
            match client.poll_event() {
                Some(event) => self.first_event = self.first_event.or(Some((self.now, event))),
                None => break,
            }
        }
    }
}
