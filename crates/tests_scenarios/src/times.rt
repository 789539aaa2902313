//! The times that a caller sets: the pause between two requests, what keeps the path to the server alive, and how long before
//! its expiry a grant is refreshed.
//!
//! The head of a transcript has no field for them. Each row says what the client does at a time, by a clock of milliseconds.

use crate::fixture::{Times, at, check, client_with_times, local, server};
use crate::messages::{ALLOCATES, CHALLENGES, GENEROUS, OTHER, PEER, SHORT};
use crate::server::{
    ALLOCATE, Answer, BINDING_INDICATION, CHANNEL_BIND, CREATE_PERMISSION, Often, REFRESH, Rule,
    Server,
};
use std::alloc::{AllocError, Global};
use std::process::Abort;
use std::test::Fail;
use turn_auth::credentials::CredentialsError;
use turn_client_api::{TurnClientApi, TurnPollRet};
use turn_stun::data::Data;
use turn_stun::transport::{Transmit, TransportType};

/// What happens at a time.
#[derive(Clone, Copy)]
enum Step {
    /// A message of this type is sent, and answered at once.
    Sends(u16),
    /// These bytes are sent.
    Indicates([u8; 20]),
    /// Nothing is sent.
    Rests,
    /// Once all events are taken, nothing is due until this time.
    Waits(u32),
    /// The caller requests a permission.
    Permits,
    /// The caller requests a channel to another peer.
    Binds,
    /// The caller deletes the allocation.
    Deletes,
}

/// A time in milliseconds, and what happens then.
type Row = (u32, Step);

/// The second ALLOCATE is not answered, nor is a REFRESH.
const SILENT: &[Rule<'static>] = &[
    CHALLENGES,
    (ALLOCATE, Often::After(1), Answer::Nothing),
    ALLOCATES,
];

/// A Binding indication without attributes (RFC 8489, sections 5 and 18.2), with the third ID of ChaCha20 under the seed of zeros
/// (RFC 8439, section 2.4).
const KEEPALIVE: [u8; 20] = [
    0x00, 0x11, 0x00, 0x00, 0x21, 0x12, 0xa4, 0x42, 0xa8, 0x36, 0xef, 0xcc, 0x8b, 0x77, 0x0d, 0xc7,
    0xda, 0x41, 0x59, 0x7c,
];

/// The same with the fourth ID.
const NEXT_KEEPALIVE: [u8; 20] = [
    0x00, 0x11, 0x00, 0x00, 0x21, 0x12, 0xa4, 0x42, 0x51, 0x57, 0x48, 0x8d, 0x77, 0x24, 0xe0, 0x3f,
    0xb8, 0xd8, 0x4a, 0x37,
];

/// The times of a client that keeps its path alive after this many milliseconds.
fn alive_after(keepalive: u32) -> Times {
    Times {
        cadence: 50,
        keepalive: Some(keepalive),
        ahead: 60_000,
    }
}

/// The times of a client that refreshes so many milliseconds ahead.
fn refreshed_ahead(ahead: u32) -> Times {
    Times {
        cadence: 50,
        keepalive: None,
        ahead,
    }
}

/// The type of a message.
fn kind_of(bytes: &[u8]) -> u16 {
    match bytes {
        [high, low, ..] => u16::from_be_bytes([*high, *low]),
        _ => 0,
    }
}

/// Passes in the server's answer to this packet, if there is one.
fn answered<C: TurnClientApi>(
    client: &mut C,
    table: &mut Server,
    rules: &[Rule<'_>],
    packet: &Transmit<Data>,
    time: u32,
) -> Result<(), AllocError> {
    if let Some(answer) = table.answer(rules, packet.payload.as_bytes())? {
        let reply = Transmit::new(answer.as_slice(), client.transport(), server(), local());
        client.recv(reply, at(time))?;
    }
    Ok(())
}

/// Whether a message of this type is sent now, and answered.
fn sends<C: TurnClientApi>(
    client: &mut C,
    table: &mut Server,
    rules: &[Rule<'_>],
    kind: u16,
    time: u32,
) -> Result<bool, AllocError> {
    match client.poll_transmit(at(time))? {
        Some(packet) => {
            answered(client, table, rules, &packet, time)?;
            Ok(kind_of(packet.payload.as_bytes()) == kind)
        }
        None => Ok(false),
    }
}

/// Whether these bytes are sent now, from the client to the server.
fn indicates<C: TurnClientApi>(
    client: &mut C,
    bytes: &[u8],
    time: u32,
) -> Result<bool, AllocError> {
    match client.poll_transmit(at(time))? {
        Some(packet) => Ok(
            packet.payload.as_bytes() == bytes && packet.from == local() && packet.to == server(),
        ),
        None => Ok(false),
    }
}

/// Whether nothing is due until this time, once all events are taken.
fn waits<C: TurnClientApi>(client: &mut C, until: u32, time: u32) -> Result<bool, AllocError> {
    for _ in 0..16 {
        if client.poll_event().is_none() {
            break;
        }
    }
    match client.poll(at(time))? {
        TurnPollRet::WaitUntil(end) => Ok(end == at(until)),
        _ => Ok(false),
    }
}

/// Whether this happens now.
fn happens<C: TurnClientApi>(
    client: &mut C,
    table: &mut Server,
    rules: &[Rule<'_>],
    row: &Row,
) -> Result<bool, AllocError> {
    let (time, step) = *row;
    let udp = TransportType::Udp;
    match step {
        Step::Sends(kind) => sends(client, table, rules, kind, time),
        Step::Indicates(bytes) => indicates(client, &bytes, time),
        Step::Rests => Ok(client.poll_transmit(at(time))?.is_none()),
        Step::Waits(until) => waits(client, until, time),
        Step::Permits => Ok(client.create_permission(udp, PEER.ip(), at(time)).is_ok()),
        Step::Binds => Ok(client.bind_channel(udp, OTHER.address(), at(time)).is_ok()),
        Step::Deletes => Ok(client.delete(at(time)).is_ok()),
    }
}

/// Asserts that each row happens at its time, in order.
fn follows<C: TurnClientApi>(
    rt: &impl Abort,
    alloc: Global,
    client: Result<C, CredentialsError>,
    rules: &[Rule<'_>],
    rows: &[Row],
) -> Result<(), Fail> {
    let mut client = client?;
    let mut table = Server::new(alloc);
    for row in rows {
        check(rt, happens(&mut client, &mut table, rules, row)?, row.0);
    }
    Ok(())
}

#[test]
fn the_first_keepalive_is_a_binding_indication(rt: HostRuntime) -> Result<(), Fail> {
    let rows = &[
        (0, Step::Sends(ALLOCATE)),
        (50, Step::Sends(ALLOCATE)),
        (50, Step::Waits(15_050)),
        (15_049, Step::Rests),
        (15_050, Step::Indicates(KEEPALIVE)),
        (15_050, Step::Waits(30_050)),
        (30_049, Step::Rests),
        (30_050, Step::Indicates(NEXT_KEEPALIVE)),
    ];
    let client = client_with_times(rt.alloc(), alive_after(15_000));
    follows(&rt, rt.alloc(), client, GENEROUS, rows)
}

// The request leaves in place of the keepalive that is due with it, and the next one is due 15 s later.
#[test]
fn a_queued_request_leaves_before_a_keepalive(rt: HostRuntime) -> Result<(), Fail> {
    let rows = &[
        (0, Step::Sends(ALLOCATE)),
        (50, Step::Sends(ALLOCATE)),
        (15_050, Step::Permits),
        (15_050, Step::Sends(CREATE_PERMISSION)),
        (15_100, Step::Rests),
        (15_100, Step::Waits(30_050)),
        (30_050, Step::Sends(BINDING_INDICATION)),
    ];
    let client = client_with_times(rt.alloc(), alive_after(15_000));
    follows(&rt, rt.alloc(), client, GENEROUS, rows)
}

// A caller that comes late finds a keepalive and a refresh due.
#[test]
fn a_refresh_leaves_before_a_keepalive(rt: HostRuntime) -> Result<(), Fail> {
    let rows = &[
        (0, Step::Sends(ALLOCATE)),
        (50, Step::Sends(ALLOCATE)),
        (50, Step::Permits),
        (100, Step::Sends(CREATE_PERMISSION)),
        (240_100, Step::Sends(CREATE_PERMISSION)),
        (240_150, Step::Rests),
        (240_150, Step::Waits(255_100)),
        (255_100, Step::Sends(BINDING_INDICATION)),
    ];
    let client = client_with_times(rt.alloc(), alive_after(15_000));
    follows(&rt, rt.alloc(), client, GENEROUS, rows)
}

// A request is sent again 3 s after it was made, and a keepalive would be due after one.
#[test]
fn no_keepalive_before_the_allocation_and_after_its_deletion(rt: HostRuntime) -> Result<(), Fail> {
    let rows = &[
        (0, Step::Sends(ALLOCATE)),
        (50, Step::Sends(ALLOCATE)),
        (1_050, Step::Rests),
        (2_000, Step::Rests),
        (2_000, Step::Waits(3_000)),
        (3_000, Step::Sends(ALLOCATE)),
        (3_000, Step::Waits(4_000)),
        (4_000, Step::Sends(BINDING_INDICATION)),
        (4_050, Step::Deletes),
        (4_050, Step::Sends(REFRESH)),
        (5_050, Step::Rests),
        (7_049, Step::Rests),
        (7_049, Step::Waits(7_050)),
        (7_050, Step::Sends(REFRESH)),
    ];
    let client = client_with_times(rt.alloc(), alive_after(1_000));
    follows(&rt, rt.alloc(), client, SILENT, rows)
}

#[test]
fn a_keepalive_waits_for_the_end_of_the_pause(rt: HostRuntime) -> Result<(), Fail> {
    let times = Times {
        cadence: 2_500,
        ..alive_after(1_000)
    };
    let rows = &[
        (0, Step::Sends(ALLOCATE)),
        (2_499, Step::Rests),
        (2_500, Step::Sends(ALLOCATE)),
        (2_500, Step::Waits(5_000)),
        (3_500, Step::Rests),
        (4_999, Step::Rests),
        (5_000, Step::Sends(BINDING_INDICATION)),
        (5_000, Step::Waits(7_500)),
    ];
    let client = client_with_times(rt.alloc(), times);
    follows(&rt, rt.alloc(), client, GENEROUS, rows)
}

#[test]
fn a_keepalive_is_not_sent_twice_when_time_goes_back(rt: HostRuntime) -> Result<(), Fail> {
    let rows = &[
        (0, Step::Sends(ALLOCATE)),
        (50, Step::Sends(ALLOCATE)),
        (15_050, Step::Sends(BINDING_INDICATION)),
        (10_000, Step::Rests),
        (10_000, Step::Waits(30_050)),
        (14_000, Step::Permits),
        (14_000, Step::Rests),
        (14_000, Step::Waits(15_100)),
        (15_100, Step::Sends(CREATE_PERMISSION)),
        (2_000, Step::Rests),
        (30_099, Step::Rests),
        (30_100, Step::Sends(BINDING_INDICATION)),
    ];
    let client = client_with_times(rt.alloc(), alive_after(15_000));
    follows(&rt, rt.alloc(), client, GENEROUS, rows)
}

#[test]
fn a_keepalive_shorter_than_a_second_is_a_second(rt: HostRuntime) -> Result<(), Fail> {
    let rows = &[
        (0, Step::Sends(ALLOCATE)),
        (50, Step::Sends(ALLOCATE)),
        (50, Step::Waits(1_050)),
        (1_049, Step::Rests),
        (1_050, Step::Sends(BINDING_INDICATION)),
    ];
    let client = client_with_times(rt.alloc(), alive_after(10));
    follows(&rt, rt.alloc(), client, GENEROUS, rows)
}

#[test]
fn requests_leave_at_once_without_a_pause(rt: HostRuntime) -> Result<(), Fail> {
    let times = Times {
        cadence: 0,
        ..alive_after(15_000)
    };
    let rows = &[
        (0, Step::Sends(ALLOCATE)),
        (0, Step::Sends(ALLOCATE)),
        (0, Step::Permits),
        (0, Step::Binds),
        (0, Step::Sends(CREATE_PERMISSION)),
        (0, Step::Sends(CHANNEL_BIND)),
        (0, Step::Rests),
        (0, Step::Waits(15_000)),
    ];
    let client = client_with_times(rt.alloc(), times);
    follows(&rt, rt.alloc(), client, GENEROUS, rows)
}

// The allocation lasts 300 s, its permission as long, and its channel 600 s.
#[test]
fn refreshes_leave_120_seconds_ahead(rt: HostRuntime) -> Result<(), Fail> {
    let rows = &[
        (0, Step::Sends(ALLOCATE)),
        (50, Step::Sends(ALLOCATE)),
        (50, Step::Binds),
        (100, Step::Sends(CHANNEL_BIND)),
        (100, Step::Waits(180_050)),
        (180_049, Step::Rests),
        (180_050, Step::Sends(REFRESH)),
        (180_050, Step::Waits(180_100)),
        (180_100, Step::Sends(CREATE_PERMISSION)),
        (180_100, Step::Waits(360_100)),
        (360_100, Step::Sends(CREATE_PERMISSION)),
        (360_100, Step::Waits(480_100)),
        (480_099, Step::Rests),
        (480_100, Step::Sends(CHANNEL_BIND)),
        (480_100, Step::Waits(540_100)),
    ];
    let client = client_with_times(rt.alloc(), refreshed_ahead(120_000));
    follows(&rt, rt.alloc(), client, SHORT, rows)
}

// 400 s ahead are cut to half of each lifetime: 150 s, 150 s and 300 s.
#[test]
fn refreshes_leave_at_most_half_a_lifetime_ahead(rt: HostRuntime) -> Result<(), Fail> {
    let rows = &[
        (0, Step::Sends(ALLOCATE)),
        (50, Step::Sends(ALLOCATE)),
        (50, Step::Binds),
        (100, Step::Sends(CHANNEL_BIND)),
        (100, Step::Waits(150_050)),
        (150_049, Step::Rests),
        (150_050, Step::Sends(REFRESH)),
        (150_050, Step::Waits(150_100)),
        (150_100, Step::Sends(CREATE_PERMISSION)),
        (150_100, Step::Waits(300_100)),
        (300_099, Step::Rests),
        (300_100, Step::Sends(CHANNEL_BIND)),
        (300_150, Step::Sends(CREATE_PERMISSION)),
        (300_150, Step::Waits(450_150)),
    ];
    let client = client_with_times(rt.alloc(), refreshed_ahead(400_000));
    follows(&rt, rt.alloc(), client, SHORT, rows)
}
