//! The loop of `turn_driver` over a client over UDP and over TCP: an allocation, a permission, and data both ways.
//!
//! A response arrives 20 ms after its request, and requests are sent 50 ms apart. Times were added up by hand. An
//! iteration that may poll the client only once has the same result as one that may poll it often.

use crate::fixture::{Place, at, client_over_tcp, client_over_udp, local, server};
use crate::messages::{DATA, GENEROUS, PEER, RELAYED, SEND};
use crate::server::Server;
use std::alloc::{AllocError, Global};
use std::net::SocketAddr;
use std::process::Abort;
use std::test::Fail;
use turn_auth::credentials::CredentialsError;
use turn_client_api::{TurnClientApi, TurnEvent};
use turn_driver::{Rest, Task, drive_client};
use turn_stun::transport::{Transmit, TransportType};
use turn_types::transmit::DelayedTransmitBuild;

/// The time from a request to its response, in milliseconds.
const DELAY: u32 = 20;

/// More iterations than are ever needed here.
const MANY: u32 = 256;

/// Bytes that are no message and no frame.
const NOISE: &[u8] = &[0xff, 0xff];

/// A task that the loop is expected to return.
#[derive(Clone, Copy)]
enum Want<'a> {
    Sent,
    Allocated(Place),
    Granted(Place),
    Data(Place, &'a [u8]),
    /// These bytes are not for the client.
    Back(&'a [u8]),
}

/// Milliseconds since the start, and the task that is expected then.
type Row<'a> = (u32, Want<'a>);

const OVER_UDP: &[Row<'static>] = &[
    (0, Want::Sent),
    (50, Want::Sent),
    (70, Want::Allocated(RELAYED)),
    (200, Want::Sent),
    (220, Want::Granted(PEER)),
    (300, Want::Data(PEER, b"hello")),
    (300, Want::Back(NOISE)),
    (300, Want::Data(PEER, b"hello")),
];

/// Two payloads arrive in one piece.
const OVER_TCP: &[Row<'static>] = &[
    (0, Want::Sent),
    (50, Want::Sent),
    (70, Want::Allocated(RELAYED)),
    (200, Want::Sent),
    (220, Want::Granted(PEER)),
    (300, Want::Data(PEER, b"hello")),
    (300, Want::Data(PEER, b"hello")),
];

/// What comes before the data.
const PERMITTED: &[Row<'static>] = &[
    (0, Want::Sent),
    (50, Want::Sent),
    (70, Want::Allocated(RELAYED)),
    (200, Want::Sent),
    (220, Want::Granted(PEER)),
];

/// How many payloads arrive in one piece: more than an iteration is mostly told to return.
const CROWD: u32 = 65;

/// A caller's clock and network, and the expected tasks.
#[derive(Drop)]
struct Looped<'a> {
    alloc: Global,
    server: Server,
    /// How often one iteration may poll the client.
    most: u32,
    now: u32,
    /// The packets on their way to the client, each with its time of arrival.
    coming: Vec<(u32, Vec<u8>)>,
    /// How many of these have arrived.
    came: usize,
    rows: &'a [Row<'a>],
    /// How many rows are done.
    done: usize,
    /// How many tasks were not expected.
    wrong: u32,
    /// Whether work may be left, so that no input is passed in.
    has_more: bool,
    has_ended: bool,
}

impl<'a> Looped<'a> {
    fn new(alloc: Global, most: u32, rows: &'a [Row<'a>]) -> Looped<'a> {
        Looped {
            alloc,
            server: Server::new(alloc),
            most,
            now: 0,
            coming: Vec::new(alloc),
            came: 0,
            rows,
            done: 0,
            wrong: 0,
            has_more: false,
            has_ended: false,
        }
    }

    /// These bytes arrive from the server now.
    fn hear(&mut self, bytes: &[u8]) -> Result<(), AllocError> {
        let bytes = Vec::from_slice(self.alloc, bytes)?;
        Ok(self.coming.push((self.now, bytes))?)
    }

    /// Runs the loop up to this time, and sleeps between its iterations.
    fn wait<C: TurnClientApi>(&mut self, client: &mut C, time: u32) -> Result<(), AllocError> {
        for _ in 0..MANY {
            let rest = self.iterate(client)?;
            let until = self.wakes(rest);
            if until > time || self.has_ended {
                break;
            }
            self.now = until;
        }
        self.now = time;
        Ok(())
    }

    /// One iteration of the loop.
    fn iterate<C: TurnClientApi>(&mut self, client: &mut C) -> Result<Rest, AllocError> {
        let came = self.next_packet(client)?;
        let mut tasks = Vec::new(self.alloc);
        let rest = drive_client(client, came, at(self.now), self.most, &mut tasks);
        let carried = self.carry_out_all(tasks.as_slice());
        drop(tasks);
        carried?;
        Ok(rest?)
    }

    fn carry_out_all(&mut self, tasks: &[Task]) -> Result<(), AllocError> {
        for task in tasks {
            self.carry_out(task)?;
        }
        Ok(())
    }

    /// The next packet that has arrived, if there is one. While work may be left, it is not passed in.
    fn next_packet<C: TurnClientApi>(
        &mut self,
        client: &C,
    ) -> Result<Option<Transmit<Vec<u8>>>, AllocError> {
        let Some((comes, bytes)) = self.coming.as_slice().get(self.came) else {
            return Ok(None);
        };
        if self.has_more || *comes > self.now {
            return Ok(None);
        }
        let bytes = Vec::from_slice(self.alloc, bytes.as_slice())?;
        self.came = self.came.saturating_add(1);
        Ok(Some(Transmit::new(bytes, client.transport(), server(), local())))
    }

    /// The time of the next iteration. A caller with a clock of milliseconds rounds up.
    fn wakes(&mut self, rest: Rest) -> u32 {
        self.has_more = rest == Rest::Now;
        let waits = match rest {
            Rest::Until(time) => {
                let millis = time.as_nanos().div_ceil(1_000_000);
                u32::try_from(millis).unwrap_or(u32::MAX)
            }
            Rest::Now => self.now,
            Rest::Ended => {
                self.has_ended = true;
                u32::MAX
            }
        };
        let until = match self.coming.as_slice().get(self.came) {
            Some((comes, _)) => waits.min(*comes),
            None => waits,
        };
        until.max(self.now)
    }

    /// Carries out a task of the client.
    fn carry_out(&mut self, task: &Task) -> Result<(), AllocError> {
        if !is_wanted(task, self.next_want()) {
            self.wrong = self.wrong.saturating_add(1);
        }
        if let Task::Send(packet) = task {
            match self.server.answer(GENEROUS, packet.payload.as_bytes())? {
                Some(answer) => self.coming.push((self.now.saturating_add(DELAY), answer))?,
                None => {}
            }
        }
        Ok(())
    }

    /// The task that is expected now, if there is one.
    fn next_want(&mut self) -> Option<Want<'a>> {
        let (time, want) = *self.rows.get(self.done)?;
        self.done = self.done.saturating_add(1);
        if time == self.now { Some(want) } else { None }
    }
}

/// Whether the task is the expected one.
fn is_wanted(task: &Task, want: Option<Want<'_>>) -> bool {
    match (task, want) {
        (Task::Send(_), Some(Want::Sent)) => true,
        (Task::Event(event), Some(want)) => is_reported(*event, want),
        (Task::Payload(given), Some(Want::Data(place, bytes))) => {
            given.peer == place.address() && given.data() == bytes
        }
        (Task::Other(packet), Some(Want::Back(bytes))) => packet.payload.as_slice() == bytes,
        _ => false,
    }
}

/// Whether the event is the expected one.
fn is_reported(event: TurnEvent, want: Want<'_>) -> bool {
    let udp = TransportType::Udp;
    match want {
        Want::Allocated(place) => event == TurnEvent::AllocationCreated(udp, place.address()),
        Want::Granted(place) => event == TurnEvent::PermissionCreated(udp, place.ip()),
        _ => false,
    }
}

/// Whether `hello` is sent to the peer as a Send indication.
fn greets<C: TurnClientApi>(alloc: Global, client: &mut C, now: u32) -> Result<bool, AllocError> {
    match client.send_to(TransportType::Udp, PEER.address(), *b"hello", at(now)) {
        Ok(Some(packet)) => {
            let (from, to) = (packet.from, packet.to);
            let bytes = packet.payload.build(alloc)?;
            Ok(bytes.as_slice().get(20..) == Some(SEND) && from == local() && to == server())
        }
        _ => Ok(false),
    }
}

/// Runs the loop while these pieces arrive, and returns whether `hello` is sent to the peer.
fn runs<C: TurnClientApi>(
    looped: &mut Looped<'_>,
    client: &mut C,
    pieces: &[&[u8]],
) -> Result<bool, AllocError> {
    looped.wait(client, 200)?;
    let _ = client.create_permission(TransportType::Udp, PEER.ip(), at(200));
    looped.wait(client, 300)?;
    for piece in pieces {
        looped.hear(piece)?;
    }
    looped.wait(client, 400)?;
    let greeted = greets(looped.alloc, client, 400)?;
    client.protocol_error()?;
    looped.wait(client, 500)?;
    Ok(greeted)
}

/// Asserts that the loop returns the tasks of the rows, and nothing else, and that it ends with its client.
fn loops<C: TurnClientApi>(
    rt: &impl Abort,
    alloc: Global,
    client: Result<C, CredentialsError>,
    most: u32,
    pieces: &[&[u8]],
    rows: &[Row<'_>],
) -> Result<(), Fail> {
    let mut client = client?;
    let mut looped = Looped::new(alloc, most, rows);
    let greeted = runs(&mut looped, &mut client, pieces)?;
    assert_eq!(rt;
        (looped.done, looped.wrong, greeted, looped.has_ended),
        (rows.len(), 0, true, true)
    );
    Ok(())
}

/// The input over UDP.
const DATAGRAMS: &[&[u8]] = &[DATA, NOISE, DATA];

/// `hello` of 10.0.0.3:9000, twice.
const TWICE: &[u8] = &[
    0x00, 0x17, 0x00, 0x18, 0x21, 0x12, 0xa4, 0x42, 0x00, 0x00, 0x00, 0x00, 0x00, 0x00, 0x00, 0x00,
    0x00, 0x00, 0x00, 0x01, 0x00, 0x12, 0x00, 0x08, 0x00, 0x01, 0x02, 0x3a, 0x2b, 0x12, 0xa4, 0x41,
    0x00, 0x13, 0x00, 0x05, 0x68, 0x65, 0x6c, 0x6c, 0x6f, 0x00, 0x00, 0x00, 0x00, 0x17, 0x00, 0x18,
    0x21, 0x12, 0xa4, 0x42, 0x00, 0x00, 0x00, 0x00, 0x00, 0x00, 0x00, 0x00, 0x00, 0x00, 0x00, 0x01,
    0x00, 0x12, 0x00, 0x08, 0x00, 0x01, 0x02, 0x3a, 0x2b, 0x12, 0xa4, 0x41, 0x00, 0x13, 0x00, 0x05,
    0x68, 0x65, 0x6c, 0x6c, 0x6f, 0x00, 0x00, 0x00,
];

/// A piece of a stream with so many payloads, and the expected tasks.
fn crowd(alloc: Global) -> Result<(Vec<u8>, Vec<Row<'static>>), AllocError> {
    let mut piece = Vec::new(alloc);
    let mut rows = Vec::from_slice(alloc, PERMITTED)?;
    for _ in 0..CROWD {
        piece.extend_from_slice(DATA)?;
        rows.push((300, Want::Data(PEER, b"hello")))?;
    }
    Ok((piece, rows))
}

#[test]
fn an_iteration_returns_65_payloads(rt: HostRuntime) -> Result<(), Fail> {
    let alloc = rt.alloc();
    let (piece, rows) = crowd(alloc)?;
    let pieces = &[piece.as_slice()];
    loops(
        &rt,
        alloc,
        client_over_tcp(alloc),
        128,
        pieces,
        rows.as_slice(),
    )
}

#[test]
fn the_loop_carries_datagrams(rt: HostRuntime) -> Result<(), Fail> {
    let alloc = rt.alloc();
    loops(&rt, alloc, client_over_udp(alloc), 1, DATAGRAMS, OVER_UDP)?;
    loops(&rt, alloc, client_over_udp(alloc), 64, DATAGRAMS, OVER_UDP)
}

#[test]
fn the_loop_carries_a_stream(rt: HostRuntime) -> Result<(), Fail> {
    let alloc = rt.alloc();
    loops(&rt, alloc, client_over_tcp(alloc), 1, &[TWICE], OVER_TCP)?;
    loops(&rt, alloc, client_over_tcp(alloc), 64, &[TWICE], OVER_TCP)
}
