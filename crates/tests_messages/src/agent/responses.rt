//! Which messages an agent accepts.

use crate::agent::fixture::{INDICATION, REQUEST, SUCCESS, agent_with, header, id, local, server};
use crate::agent::steps::{Step, follow, sends};
use crate::fixture::same;
use std::net::SocketAddr;
use std::process::Abort;
use turn_agent::agent::StunAgent;
use turn_stun::message::Message;
use turn_stun::transport::TransportType;

/// The source of a message.
#[derive(Clone, Copy)]
enum Origin {
    Server,
    /// Another port of the server.
    Elsewhere,
    Client,
}

fn address_of(origin: Origin) -> SocketAddr {
    match origin {
        Origin::Server => server(),
        Origin::Elsewhere => SocketAddr::new(server().ip(), 2001),
        Origin::Client => local(),
    }
}

/// A message: its type, the number of its ID, its source, whether request 1 is outstanding before it, and
/// whether it is accepted.
type Row = ([u8; 2], u32, Origin, bool, bool);

static ROWS: [Row; 7] = [
    (REQUEST, 1, Origin::Elsewhere, true, true),
    (INDICATION, 1, Origin::Elsewhere, true, true),
    (SUCCESS, 2, Origin::Server, true, false),
    (SUCCESS, 1, Origin::Elsewhere, true, false),
    (SUCCESS, 1, Origin::Client, true, false),
    (SUCCESS, 1, Origin::Server, true, true),
    (SUCCESS, 1, Origin::Server, false, false),
];

/// Whether the agent accepts a message.
pub fn accepts(rt: &impl Abort, agent: &mut StunAgent, bytes: [u8; 20], from: SocketAddr) -> bool {
    let message = Message::from_bytes(bytes.as_slice()).expect(rt, "a message");
    agent.handle_stun_message(&message, from)
}

fn is_answered(rt: &impl Abort, agent: &mut StunAgent, row: &Row) {
    same(rt, agent.is_outstanding(id(1)), row.3);
    let found = accepts(rt, agent, header(row.0, id(row.1)), address_of(row.2));
    same(rt, found, row.4);
}

#[test]
fn response_is_accepted_once_and_from_the_address_asked(rt: HostRuntime) {
    let (first, last) = (500_000_000, 8_000_000_000);
    let mut agent = agent_with(rt.alloc(), TransportType::Udp, first, u64::MAX, 7, last);
    sends(&rt, &mut agent, 1, 0);
    for row in &ROWS {
        is_answered(&rt, &mut agent, row);
    }
    follow(&rt, &mut agent, Step::SendsNothing(first));
}
