//! Which input of its client a gatherer passes up, by single calls and by a list of them.
//!
//! A row has a call and its expected answer.

ghost use Rattle.std.specs.Prelude.{◌≡◌, All, IfOk, length};
ghost use Rattle.turn_gather.specs.Drive.{IsGatherCallable};

use crate::caller::Caller;
use crate::fixture::{
    Place, at, client_over_tcp, client_over_udp, either_over_tcp, either_over_udp, local, server,
};
use crate::messages::{DATA, GENEROUS, OTHER, PEER, RELAYED};
use std::alloc::{AllocError, Global};
use std::net::SocketAddr;
use std::process::Abort;
use std::test::Fail;
use turn_auth::credentials::CredentialsError;
use turn_client_api::{CreatePermissionError, SendError, TurnClientApi};
use turn_gather::{Driven, GatherCall, GatherError, GatherRecv, GatherReply, Gatherer, drive};
use turn_stun::data::Data;
use turn_stun::transport::{Transmit, TransportType};
use turn_types::transmit::DelayedTransmitBuild;

/// The time of all calls, in milliseconds after the start.
const NOW: u32 = 500;

/// The peer's other port.
const OTHER_PORT: Place = Place(3, 9_001);

/// The maximum number of checked pairs.
const MOST: u16 = 1_024;

/// A call.
#[derive(Clone, Copy)]
enum Ask<'a> {
    Candidates,
    IsChecked(TransportType, Place),
    Check(TransportType, Place),
    /// A datagram from the server.
    Hear(&'a [u8]),
    /// The next payload in the client's streams; there is none over UDP.
    Poll,
    Permit(Place),
    /// `hello` to this peer.
    Greet(Place),
    Event,
}

/// The expected answer.
#[derive(Clone, Copy)]
enum Want<'a> {
    Addresses(&'a [Place]),
    Yes,
    No,
    Done,
    /// The payload of this peer.
    Payload(Place, &'a [u8]),
    Dropped,
    Ignored,
    Nothing,
    AlreadyExists,
    NoPermission,
    /// A packet of this many bytes.
    Packet(usize),
}

type Row<'a> = (Ask<'a>, Want<'a>);

/// Bytes that are no message and no frame.
const NOISE: &[u8] = &[0xff, 0xff];

/// From the permitted peer only data from the checked port is passed up, and only over the checked transport.
const ROWS: &[Row<'static>] = &[
    (Ask::Candidates, Want::Addresses(&[RELAYED])),
    (Ask::Hear(DATA), Want::Dropped),
    (Ask::Check(TransportType::Udp, OTHER_PORT), Want::Done),
    (Ask::Hear(DATA), Want::Dropped),
    (Ask::Check(TransportType::Tcp, PEER), Want::Done),
    (Ask::Hear(DATA), Want::Dropped),
    (Ask::IsChecked(TransportType::Udp, PEER), Want::No),
    (Ask::Check(TransportType::Udp, PEER), Want::Done),
    (Ask::IsChecked(TransportType::Udp, PEER), Want::Yes),
    (Ask::Hear(DATA), Want::Payload(PEER, b"hello")),
    (Ask::Check(TransportType::Udp, PEER), Want::Done),
    (Ask::Hear(DATA), Want::Payload(PEER, b"hello")),
    (Ask::Poll, Want::Nothing),
    (Ask::Permit(PEER), Want::AlreadyExists),
    (Ask::Greet(PEER), Want::Packet(44)),
    (Ask::Greet(OTHER), Want::NoPermission),
    (Ask::Event, Want::Nothing),
];

/// Over UDP such a packet is not for the client. Over TCP it would break the stream.
const NOISE_ROWS: &[Row<'static>] = &[(Ask::Hear(NOISE), Want::Ignored)];

/// Brings a new client to an allocation and a permission for the peer; it has reported both.
fn permitted<C: TurnClientApi>(alloc: Global, client: &mut C) -> Result<(), AllocError> {
    let mut caller = Caller::new(alloc);
    caller.wait(client, GENEROUS, 200)?;
    let _ = client.create_permission(TransportType::Udp, PEER.ip(), at(200));
    caller.wait(client, GENEROUS, NOW)
}

fn is(found: bool, want: &Want<'_>) -> bool {
    match want {
        Want::Yes => found,
        Want::No => !found,
        _ => false,
    }
}

fn are_addresses(found: &[(TransportType, SocketAddr)], want: &Want<'_>) -> bool {
    let Want::Addresses(places) = want else {
        return false;
    };
    found.len() == places.len()
        && found.iter().zip(places.iter()).all(|(found, place)| *found
            == (TransportType::Udp, place.address()))
}

fn is_payload(transport: TransportType, peer: SocketAddr, bytes: &[u8], want: &Want<'_>) -> bool {
    match want {
        Want::Payload(place, data) => {
            transport == TransportType::Udp && peer == place.address() && bytes == *data
        }
        _ => false,
    }
}

fn is_checked(answer: Result<(), GatherError>, want: &Want<'_>) -> bool {
    match answer {
        Ok(()) => matches!(want, Want::Done),
        Err(_) => false,
    }
}

fn has_active_permission(answer: Result<(), CreatePermissionError>, want: &Want<'_>) -> bool {
    match answer {
        Err(CreatePermissionError::AlreadyExists) => matches!(want, Want::AlreadyExists),
        _ => false,
    }
}

fn is_refused(refusal: SendError, want: &Want<'_>) -> bool {
    matches!(refusal, SendError::NoPermission) && matches!(want, Want::NoPermission)
}

fn is_packet(len: usize, want: &Want<'_>) -> bool {
    match want {
        Want::Packet(bytes) => len == *bytes,
        _ => false,
    }
}

/// Whether the datagram has the expected result.
fn hears<C: TurnClientApi>(
    gatherer: &mut Gatherer<C>,
    bytes: &[u8],
    want: &Want<'_>,
) -> Result<bool, AllocError> {
    let packet = Transmit::new(bytes, gatherer.client().transport(), server(), local());
    match gatherer.recv(packet, at(NOW))? {
        GatherRecv::Handled => Ok(false),
        GatherRecv::Ignored(back) => Ok(matches!(want, Want::Ignored) && back.payload == bytes),
        GatherRecv::Payload(given) => Ok(is_payload(
            given.transport,
            given.peer,
            given.data(),
            want,
        )),
        GatherRecv::Dropped => Ok(matches!(want, Want::Dropped)),
    }
}

/// Whether the packet for this peer is the expected one.
fn greets<C: TurnClientApi>(gatherer: &mut Gatherer<C>, to: SocketAddr, want: &Want<'_>) -> bool {
    let hello: &[u8] = b"hello";
    match gatherer.send_to(TransportType::Udp, to, hello, at(NOW)) {
        Ok(Some(packet)) => is_packet(packet.payload.len(), want),
        Ok(None) => false,
        Err(refusal) => is_refused(refusal, want),
    }
}

/// Whether the gatherer answers the row as expected.
fn holds<C: TurnClientApi>(
    alloc: Global,
    gatherer: &mut Gatherer<C>,
    row: &Row<'_>,
) -> Result<bool, AllocError> {
    let (ask, want) = row;
    match ask {
        Ask::Candidates => {
            let found = gatherer.candidates(alloc)?;
            Ok(are_addresses(found.as_slice(), want))
        }
        Ask::IsChecked(transport, place) => {
            Ok(is(gatherer.is_checked(*transport, place.address()), want))
        }
        Ask::Check(transport, place) => {
            Ok(is_checked(gatherer.check(*transport, place.address()), want))
        }
        Ask::Hear(bytes) => hears(gatherer, bytes, want),
        Ask::Poll => {
            let given = gatherer.poll_recv(at(NOW))?;
            Ok(given.is_none() && matches!(want, Want::Nothing))
        }
        Ask::Permit(place) => {
            let answer = gatherer.create_permission(TransportType::Udp, place.ip(), at(NOW));
            Ok(has_active_permission(answer, want))
        }
        Ask::Greet(place) => Ok(greets(gatherer, place.address(), want)),
        Ask::Event => Ok(gatherer.poll_event().is_none() && matches!(want, Want::Nothing)),
    }
}

/// Asserts that this row has the expected answer.
fn check_row(rt: &impl Abort, number: usize, is_so: bool) {
    assert_eq!(rt; (number, is_so), (number, true));
}

/// Asserts that a gatherer answers each row as expected.
fn follows<C: TurnClientApi>(
    rt: &impl Abort,
    alloc: Global,
    gatherer: &mut Gatherer<C>,
    rows: &[Row<'_>],
) -> Result<(), AllocError> {
    for (number, row) in rows.iter().enumerate() {
        let is_so = holds(alloc, gatherer, row)?;
        check_row(rt, number, is_so);
    }
    Ok(())
}

/// The same for a gatherer over this client.
fn follow<C: TurnClientApi>(
    rt: &impl Abort,
    alloc: Global,
    client: Result<C, CredentialsError>,
    rows: &[Row<'_>],
) -> Result<(), Fail> {
    let mut client = client?;
    permitted(alloc, &mut client)?;
    let mut gatherer = Gatherer::new(alloc, client);
    let followed = follows(rt, alloc, &mut gatherer, rows);
    drop(gatherer);
    Ok(followed?)
}

#[test]
fn only_checked_pairs_are_heard(rt: HostRuntime) -> Result<(), Fail> {
    let alloc = rt.alloc();
    follow(&rt, alloc, client_over_udp(alloc), ROWS)?;
    follow(&rt, alloc, client_over_udp(alloc), NOISE_ROWS)?;
    follow(&rt, alloc, client_over_tcp(alloc), ROWS)
}

#[test]
fn only_checked_pairs_are_heard_of_either_client(rt: HostRuntime) -> Result<(), Fail> {
    let alloc = rt.alloc();
    follow(&rt, alloc, either_over_udp(alloc), ROWS)?;
    follow(&rt, alloc, either_over_tcp(alloc), ROWS)
}

fn greeting(alloc: Global) -> Result<Data, AllocError>
    ensures { IfOk result (λ greeting. length greeting ≡ 5) }
{
    Ok(Data::from(Vec::from_slice(alloc, b"hello")?))
}

/// The call of the row, as a value.
fn call<C: TurnClientApi>(
    alloc: Global,
    gatherer: &Gatherer<C>,
    ask: &Ask<'_>,
) -> Result<GatherCall, AllocError>
    ensures { IfOk result (IsGatherCallable gatherer.now.client.config.allocation_transport) }
{
    let now = at(NOW);
    match ask {
        Ask::Candidates => Ok(GatherCall::Candidates),
        Ask::IsChecked(transport, place) => Ok(GatherCall::IsChecked {
            transport: *transport,
            peer: place.address(),
        }),
        Ask::Check(transport, place) => Ok(GatherCall::Check {
            transport: *transport,
            peer: place.address(),
        }),
        Ask::Hear(bytes) => {
            let data = Data::from(bytes.to_vec(alloc)?);
            let transmit = Transmit::new(data, gatherer.client().transport(), server(), local());
            Ok(GatherCall::Recv { transmit, now })
        }
        Ask::Poll => Ok(GatherCall::PollRecv { now }),
        Ask::Permit(place) => Ok(GatherCall::CreatePermission {
            transport: TransportType::Udp,
            peer_addr: place.ip(),
            now,
        }),
        Ask::Greet(place) => Ok(GatherCall::SendTo {
            transport: TransportType::Udp,
            to: place.address(),
            data: greeting(alloc)?,
            now,
        }),
        Ask::Event => Ok(GatherCall::PollEvent),
    }
}

fn calls_of<C: TurnClientApi>(
    alloc: Global,
    gatherer: &Gatherer<C>,
    rows: &[Row<'_>],
) -> Result<Vec<GatherCall>, AllocError>
    ensures { IfOk result (λ calls. All (IsGatherCallable gatherer.now.client.config.allocation_transport) calls.items) }
{
    let mut calls = Vec::new(alloc);
    for (ask, _) in rows {
        calls.push(call(alloc, gatherer, ask)?)?;
    }
    Ok(calls)
}

/// Whether the answer is the expected one.
fn is_wanted(reply: &GatherReply, want: &Want<'_>) -> bool {
    match reply {
        GatherReply::Candidates(found) => are_addresses(found.as_slice(), want),
        GatherReply::IsChecked(found) => is(*found, want),
        GatherReply::Check(answer) => is_checked(*answer, want),
        GatherReply::Handled => false,
        GatherReply::Ignored => matches!(want, Want::Ignored),
        GatherReply::Payload(payload) => {
            is_payload(
                payload.transport,
                payload.peer,
                payload.data.as_bytes(),
                want,
            )
        }
        GatherReply::Dropped => matches!(want, Want::Dropped),
        GatherReply::NoPayload => matches!(want, Want::Nothing),
        GatherReply::CreatePermission(answer) => has_active_permission(*answer, want),
        GatherReply::SendTo(Ok(packet)) => is_packet(packet.payload.as_bytes().len(), want),
        GatherReply::SendTo(Err(refusal)) => is_refused(*refusal, want),
        GatherReply::Poll(_) => false,
        GatherReply::Transmit(_) => false,
        GatherReply::Event(event) => event.is_none() && matches!(want, Want::Nothing),
    }
}

/// The answers of a gatherer to the calls of the rows.
fn replies_of<C: TurnClientApi>(
    alloc: Global,
    gatherer: Gatherer<C>,
    rows: &[Row<'_>],
) -> Result<Vec<GatherReply>, AllocError> {
    let calls = calls_of(alloc, &gatherer, rows)?;
    let Driven { replies, gatherer } = drive(alloc, gatherer, calls.as_slice())?;
    drop(gatherer);
    Ok(replies)
}

/// Asserts that each row has the expected answer.
fn are_wanted(rt: &impl Abort, replies: &[GatherReply], rows: &[Row<'_>]) {
    assert_eq!(rt; replies.len(), rows.len());
    for (number, (reply, row)) in replies.iter().zip(rows.iter()).enumerate() {
        check_row(rt, number, is_wanted(reply, &row.1));
    }
}

/// Asserts that a gatherer over this client answers a list of calls row by row.
fn drive_all<C: TurnClientApi>(
    rt: &impl Abort,
    alloc: Global,
    client: Result<C, CredentialsError>,
    rows: &[Row<'_>],
) -> Result<(), Fail> {
    let mut client = client?;
    permitted(alloc, &mut client)?;
    let replies = replies_of(alloc, Gatherer::new(alloc, client), rows)?;
    are_wanted(rt, replies.as_slice(), rows);
    Ok(())
}

#[test]
fn a_list_of_calls_hears_only_checked_pairs(rt: HostRuntime) -> Result<(), Fail> {
    let alloc = rt.alloc();
    drive_all(&rt, alloc, client_over_udp(alloc), ROWS)?;
    drive_all(&rt, alloc, client_over_tcp(alloc), ROWS)
}

#[test]
fn a_list_of_calls_hears_only_checked_pairs_of_either_client(rt: HostRuntime) -> Result<(), Fail> {
    let alloc = rt.alloc();
    drive_all(&rt, alloc, either_over_udp(alloc), ROWS)?;
    drive_all(&rt, alloc, either_over_tcp(alloc), ROWS)
}

/// Checks the maximum number of pairs.
fn fill<C: TurnClientApi>(gatherer: &mut Gatherer<C>) -> Result<(), GatherError> {
    for port in 0..MOST {
        gatherer.check(TransportType::Udp, Place(3, port).address())?;
    }
    Ok(())
}

/// Asserts that no other pair is accepted, and that each of them is accepted again.
fn is_full<C: TurnClientApi>(rt: &impl Abort, gatherer: &mut Gatherer<C>) {
    let udp = TransportType::Udp;
    let refused = [
        gatherer.check(udp, Place(3, MOST).address()),
        gatherer.check(TransportType::Tcp, Place(3, 0).address()),
        gatherer.check(udp, Place(3, 0).address()),
        gatherer.check(udp, Place(3, MOST - 1).address()),
    ];
    assert_eq!(rt;
        refused,
        [
            Err(GatherError::Full),
            Err(GatherError::Full),
            Ok(()),
            Ok(())
        ]
    );
    let checked = [
        gatherer.is_checked(udp, Place(3, MOST).address()),
        gatherer.is_checked(udp, Place(3, MOST - 1).address()),
    ];
    assert_eq!(rt; checked, [false, true]);
}

/// Asserts it for a gatherer over this client, once the pairs are checked.
fn fills<C: TurnClientApi>(
    rt: &impl Abort,
    alloc: Global,
    client: Result<C, CredentialsError>,
) -> Result<(), Fail> {
    let mut gatherer = Gatherer::new(alloc, client?);
    let filled = fill(&mut gatherer);
    is_full(rt, &mut gatherer);
    drop(gatherer);
    Ok(filled?)
}

#[test]
fn no_pair_is_checked_past_the_last_place(rt: HostRuntime) -> Result<(), Fail> {
    fills(&rt, rt.alloc(), client_over_udp(rt.alloc()))
}

/// Accepts each failed memory allocation as an answer, and asserts the state after it.
mod memory {
    use super::{RELAYED, Want, are_addresses, permitted};
    use crate::fixture::client_over_udp;
    use crate::messages::PEER;
    use std::alloc::{AllocError, Global};
    use std::process::Abort;
    use std::test::Fail;
    use turn_auth::credentials::CredentialsError;
    use turn_client_api::TurnClientApi;
    use turn_gather::{GatherError, Gatherer};
    use turn_stun::transport::TransportType;

    /// Asserts that the pair is checked, unless memory allocation failed.
    fn check<C: TurnClientApi>(rt: &impl Abort, gatherer: &mut Gatherer<C>) {
        let answer = gatherer.check(TransportType::Udp, PEER.address());
        let checked = gatherer.is_checked(TransportType::Udp, PEER.address());
        match answer {
            Ok(()) => assert_eq!(rt; checked, true),
            Err(refusal) => assert_eq!(rt; (refusal, checked), (GatherError::OutOfMemory, false)),
        }
    }

    /// Asserts it twice, since a failure is not stored.
    fn check_twice<C: TurnClientApi>(
        rt: &impl Abort,
        alloc: Global,
        client: Result<C, CredentialsError>,
    ) {
        if let Ok(client) = client {
            let mut gatherer = Gatherer::new(alloc, client);
            check(rt, &mut gatherer);
            check(rt, &mut gatherer);
        }
    }

    #[test]
    fn a_pair_is_checked_or_refused(rt: HostRuntime) {
        check_twice(&rt, rt.alloc(), client_over_udp(rt.alloc()));
    }

    /// Asserts that the candidates are reported at the second try, unless they are at the first one: the client has lost
    /// nothing.
    fn are_reported<C: TurnClientApi>(
        rt: &impl Abort,
        alloc: Global,
        gatherer: &Gatherer<C>,
    ) -> Result<(), AllocError> {
        let found = match gatherer.candidates(alloc) {
            Ok(found) => found,
            Err(_) => gatherer.candidates(alloc)?,
        };
        assert!(rt; are_addresses(found.as_slice(), &Want::Addresses(&[RELAYED])));
        Ok(())
    }

    /// The same for a gatherer over this client, once it has its relayed address.
    fn report<C: TurnClientApi>(
        rt: &impl Abort,
        alloc: Global,
        client: Result<C, CredentialsError>,
    ) -> Result<(), AllocError> {
        let Ok(mut client) = client else {
            return Ok(());
        };
        if permitted(alloc, &mut client).is_err() {
            return Ok(());
        }
        are_reported(rt, alloc, &Gatherer::new(alloc, client))
    }

    #[test]
    fn candidates_are_reported_or_refused(rt: HostRuntime) -> Result<(), Fail> {
        Ok(report(&rt, rt.alloc(), client_over_udp(rt.alloc()))?)
    }
}
