//! A new client, and the calls of a run on it.

ghost use Rattle.std.specs.Prelude.{◌≡◌, All, IfOk, OnOk};
ghost use Rattle.turn_client_api.specs.State.{initial};
ghost use Rattle.turn_client_calls.specs.Run.{IsCallable, replies_of, run};
ghost use Rattle.turn_client_proto.specs.Client.{state_of};
ghost use Rattle.turn_client_runs.specs.InOrder.{InputsFollow};
ghost use Rattle.turn_client_runs.specs.Processed.{CallsProcessInputs};
ghost use Rattle.turn_client_runs.specs.Promises.{AfterEach, BoundHaveSuccess, CutsAgree, FewAreAnswered, GrantsHaveReplies, DeliversOnlyPermitted, InEachPart};
ghost use Rattle.turn_client_runs.specs.Promises.{NumbersAreDistinct, RealmIsAnswered, RealmStays, RepliesCountOnce};
ghost use Rattle.turn_client_runs.specs.Calm.{TrafficIsCalm};
ghost use Rattle.turn_client_runs.specs.Deliveries.{DataIsReturned};
ghost use Rattle.turn_client_runs.specs.Ends.{TellsItsEnd};
ghost use Rattle.turn_client_runs.specs.Events.{EventsHaveCauses};
ghost use Rattle.turn_client_runs.specs.LastingRuns.{GrantsLastInRuns};
ghost use Rattle.turn_client_runs.specs.Leaving.{OnlyOwnLeave};
ghost use Rattle.turn_client_runs.specs.Offers.{BoundAreOffered};
ghost use Rattle.turn_client_runs.specs.Paced.{RequestsArePaced};
ghost use Rattle.turn_client_runs.specs.Sends.{ReachablePeersAreSentTo};
ghost use Rattle.turn_client_runs.specs.Sent.{PacketsGoOut};
ghost use Rattle.turn_client_runs.specs.Short.{StreamsAreShort};
ghost use Rattle.turn_client_runs.specs.Sleeps.{SleepsThroughNothing};
ghost use Rattle.turn_client_runs.specs.Reported.{CausesAreReportedOnce};
ghost use Rattle.turn_client_runs.specs.Tried.{RequestsAreTried};
ghost use Rattle.turn_client_proto.specs.Delivered.{AnswersOnlyPermitted};
ghost use Rattle.turn_client_api.specs.Steps.{state_after_all};

use crate::client::TurnClient;
use crate::runs::{Call, Reply, reply_to};
use std::alloc::{AllocError, Global};
use std::net::SocketAddr;
use turn_client_api::{TurnClientApi, TurnConfig};
use turn_stun::transport::TransportType;

/// The result of a run.
#[derive(Debug, Drop)]
pub struct Replayed {
    /// The reply to each call, in their order.
    pub replies: Vec<Reply>,
    /// The client after the last call.
    pub client: TurnClient,
}

/// Makes a client over this transport, which sends from `local` to the server at `remote` and draws
/// its transaction IDs from this seed, and makes these calls on it.
///
/// The replies are those of `run` in `specs/`: each call by its own step, whatever came before. In the other
/// clauses an input is one datagram, one frame of a stream, or the data of a bound data connection:
///
/// - `granted`: after each call, each allocation, active permission, active channel and bound data connection
///   has a signed success among the inputs, to an outstanding request of the client's own. The grant expires as
///   that success says, or an accepted `delete` ended the allocation (RFC 8656, sections 7.3, 9 and 12).
///   The relayed address of an allocation stands in the success to its ALLOCATE, which is among the inputs too.
/// - `bound`: each bound stream was bound by such a success, to the CONNECTION_BIND of a connection that the caller
///   opened for this peer, and has been bound since (RFC 6062, section 4.3).
/// - `offers`: the caller opened each of them before, by an accepted `allocated_tcp_socket`, which took the first
///   offer of this peer with the connection ID of that CONNECTION_BIND. The offer came from the signed success to
///   a CONNECT that an accepted `tcp_connect` had asked for, or from a ConnectionAttempt for this peer over the
///   control connection, each with this CONNECTION-ID, and stood until it was taken (RFC 6062, sections 4.3 and 4.4).
/// - `numbers`: after each call, no channel number names two peers.
/// - `given`, `heard`: in any consecutive calls, so in each call, all data of peers among the replies is that
///   of an input of these calls, whose peer had a permission, a channel or a bound data connection when it was
///   processed. An ICMP report is for a peer with a permission. Each input is a datagram of its call, the first
///   whole frame of its stream, or all that a bound stream holds, and was received by then.
/// - `delivered`: over UDP a datagram of the server that is a DATA indication of a peer with an active permission, or a
///   ChannelData message of an active channel, is returned by its `recv`, with exactly its data, and changes nothing. Over
///   TCP so is each such frame of the control connection, and all that a bound connection holds, by the call that
///   processes it, once and in order; and no stream holds a whole frame after a `poll_recv` that returned nothing.
/// - `counted`: a reply is accepted only if its request is outstanding, and ends it; so a second reply with its
///   ID is accepted only if a new request was made with that ID (RFC 8489, section 6.3).
/// - `challenges`: each challenge that is answered over the control connection is counted, and in any
///   consecutive calls at most `max_stale_nonces` of the configuration are, unless a signed reply lowers the
///   count, which no other input and no call without one does (RFC 8489, section 9.2.5).
/// - `realm`, `held`: realm and algorithm, once held, never change, and are those of the first challenge that was
///   answered.
/// - `processed`: `recv` and `poll_recv` change what their inputs change, one after the other, and apart from the
///   bytes in the streams nothing else, or the server closed a stream. No other call activates a grant. The data
///   of peers that a call returns is that of its inputs. A call takes a grant away only if it names it: by its kind and
///   arguments, by a signed reply to a request for it or a message of its connection among the inputs, by the end of its
///   stream, or, if it is a `poll`, since the grant or its allocation is over. What it does not take stays pending, active or
///   reserved, and a data connection bound, but for an active channel that a `poll` reserves at its expiry.
/// - `order`: the inputs out of a stream are all that arrives for it, in order: what it held before any
///   consecutive calls, and then what arrived for it in them, is what they took out of it, and then the rest, unless one of
///   them opens the stream. It holds the rest, unless it is broken: then it was so before, or the rest begins with a byte
///   with which no frame begins.
/// - `sent`: each packet of `poll_transmit` goes to the server. A CONNECTION_BIND goes over the data connection
///   that it is to bind, from the local address that the caller named (RFC 6062, section 4.3), all else from the
///   client's own. What `send_to` gives is for the peer that was named: over its bound data connection, in a
///   ChannelData message of its active channel, or in a Send indication with its address (RFC 8656, sections 11.1
///   and 12.5).
/// - `leaves`: each packet of `poll_transmit` is a message of the client's own, with the attributes of its kind and no others: the
///   first ALLOCATE, which is not signed; another request for an allocation, a refresh of 1800 s, or a request for what one of the
///   calls named; a response to the server's request for a data connection; or a Binding indication without attributes. The
///   others are signed under a challenge that came in (RFC 8489, section 9.2). The password is in the key of the integrity, and
///   in nothing else: but for that value they are the bytes of a client whose password is empty.
/// - `paced`: if requests are timed from their first copies (`set_requests_timed_from_send`), each packet of `poll_transmit` is a
///   reply to a request of the server, or retransmits an outstanding request of which a copy was given, or the pause
///   (`request_cadence`) after each other packet but replies is over, unless a call after that one was made at an earlier time. So no
///   first copy leaves within the pause, nor as a retransmission. A queued request leaves only while it awaits its response, and
///   something is left that it was made for; a REFRESH, while there is an allocation. And no request times out of which no copy
///   was given (RFC 8489, section 6.2.1).
/// - `sends`: `send_to` gives such a packet, with exactly these data, while an allocation relays to the peer's IP address over
///   the transport, is not marked as expired, and the IP address has an active permission, over TCP also a bound data
///   connection. Each refusal is true. It changes no more than the next transaction ID. `have_permission` is true
///   of exactly these IP addresses.
/// - `events`: each event that `poll_event` returns has its cause in an earlier call, and has waited since. What
///   it reports as created was granted by a signed success to an own request for it. What it reports as failed
///   was refused by a signed reply, timed out or expired at a `poll`, or ended with the client; or a message of
///   its data connection did not bind it.
/// - `once`: no cause is reported twice. Of each requested address family at most one event tells that it was allocated
///   or that it failed, as a configuration names each once. An accepted request of the caller that found no such
///   permission or channel is answered by at most one event that it was created, and by at most one that it failed. A
///   `tcp_connect` that found no data connection to the peer, and an attempt of the server that the client accepted,
///   is answered by at most one event, that one is bound or that it failed (RFC 8656, sections 7.3, 9 and 12; RFC
///   6062, sections 4.3 and 4.4).
/// - `short`: after a `poll_recv` that returns none, each stream holds fewer than 65,555 bytes, if the bytes
///   received for it are numbers below 256, as in any memory.
/// - `cuts`: over TCP, if `poll_recv` returns none and changes nothing, pieces of a stream at one time, none of
///   them empty and each followed by `poll_recv` until it returns none, return the payloads of their joined
///   bytes, and leave the same client.
/// - `lasts`: in each part of the run that begins with all grants in force and none of their refreshes late, and in which
///   the server answers and the caller is late by little, what is in force stays in force, and a permission or channel that
///   is requested is in force after the server's delay, if no call lets it go. No `poll` of that part returns that a client
///   with an allocation has ended (RFC 8656, sections 8, 9 and 12). The premises are those of
///   `grants_last_while_the_server_answers` (`behind`). In the whole run a signed success that comes ends its request.
/// - `calm`: from a `poll` on that returned a later time, nothing is due before that time after any calls that send data to
///   peers, receive data or ICMP reports of peers, or look; over TCP if nothing else is processed with them.
/// - `tried`: a request times out only at a `poll` before which `poll_transmit` gave each retransmission that the configuration
///   names, under its ID, each once the wait of an outstanding request of this ID was over, and after its last wait (RFC 8489, section
///   6.2.1). While an outstanding request has waited that is to be repeated, each `poll_transmit` retransmits such a one; and while
///   one has waited that is not, each `poll` gives such a one up, once all events, replies and offers are taken.
/// - `ends`: where `poll` returns that the client has ended, one of the calls up to it ended the client, which has ended since:
///   `protocol_error`; a message that grants none of the addresses that are requested, confirms that the allocations are deleted,
///   cannot be trusted while addresses are requested, or is one challenge too many; or a `poll` at which an ALLOCATE had no response in
///   time, or each allocation had expired (RFC 8656, sections 7 and 8; RFC 8489, sections 6.2 and 9.2). `protocol_error` and each
///   such message end the client for good. And `poll` returns so of each client that has ended, once all events, replies to the
///   server and closes are taken.
/// - `alarm`: a caller that sleeps until the time that each `poll` returns misses no deadline, and no expiry of an
///   allocation, whether or not it is marked as expired.
///
/// Times are at most 2^62 nanoseconds, and may go back from call to call. If the allocation relays over UDP,
/// data for a peer is at most 65,504 bytes. A client over UDP requests such an allocation, since one over TCP
/// needs a client over TCP (RFC 6062, section 4.1).
///
/// # Errors
///
/// If memory allocation for the client, for a call or for its reply fails. The run ends there.
pub fn replay(
    alloc: Global,
    transport: TransportType,
    local: SocketAddr,
    remote: SocketAddr,
    config: TurnConfig,
    seed: [u8; 32],
    calls: &[Call],
) -> Result<Replayed, AllocError>
    requires allocation { transport ≡ TransportType.Udp → config.allocation_transport ≡ TransportType.Udp }
    requires callable { All (IsCallable config.allocation_transport) calls.now }
    ensures replies { IfOk result (λ replayed. replayed.replies.items ≡ (run transport local remote config seed calls.now).0) }
    ensures client { IfOk result (λ replayed. state_of replayed.client ≡ (run transport local remote config seed calls.now).1) }
    ensures granted { AfterEach GrantsHaveReplies (initial transport local remote config seed) calls.now }
    ensures numbers { AfterEach NumbersAreDistinct (initial transport local remote config seed) calls.now }
    ensures bound { AfterEach BoundHaveSuccess (initial transport local remote config seed) calls.now }
    ensures offers { AfterEach BoundAreOffered (initial transport local remote config seed) calls.now }
    ensures given { InEachPart AnswersOnlyPermitted (initial transport local remote config seed) calls.now }
    ensures heard { DeliversOnlyPermitted (initial transport local remote config seed) calls.now }
    ensures delivered { DataIsReturned (initial transport local remote config seed) calls.now }
    ensures counted { RepliesCountOnce (initial transport local remote config seed) calls.now }
    ensures challenges { FewAreAnswered (initial transport local remote config seed) calls.now }
    ensures realm { RealmStays (initial transport local remote config seed) calls.now }
    ensures held { RealmIsAnswered (initial transport local remote config seed) calls.now }
    ensures processed { CallsProcessInputs (initial transport local remote config seed) calls.now }
    ensures order { InputsFollow (initial transport local remote config seed) calls.now }
    ensures sent { PacketsGoOut (initial transport local remote config seed) calls.now }
    ensures leaves { OnlyOwnLeave (initial transport local remote config seed) calls.now }
    ensures paced { RequestsArePaced (initial transport local remote config seed) calls.now }
    ensures sends { ReachablePeersAreSentTo (initial transport local remote config seed) calls.now }
    ensures events { EventsHaveCauses (initial transport local remote config seed) calls.now }
    ensures once { CausesAreReportedOnce (initial transport local remote config seed) calls.now }
    ensures short { StreamsAreShort (initial transport local remote config seed) calls.now }
    ensures cuts { CutsAgree (initial transport local remote config seed) calls.now }
    ensures lasts { GrantsLastInRuns (initial transport local remote config seed) calls.now }
    ensures calm { TrafficIsCalm (initial transport local remote config seed) calls.now }
    ensures tried { RequestsAreTried (initial transport local remote config seed) calls.now }
    ensures ends { TellsItsEnd (initial transport local remote config seed) calls.now }
    ensures alarm { SleepsThroughNothing (initial transport local remote config seed) calls.now }
{
    make_run(alloc, transport, local, remote, config, seed, calls)
}

/// The replies of a new client to these calls, and the client after them.
fn make_run(
    alloc: Global,
    transport: TransportType,
    local: SocketAddr,
    remote: SocketAddr,
    config: TurnConfig,
    seed: [u8; 32],
    calls: &[Call],
) -> Result<Replayed, AllocError>
    requires allocation { transport ≡ TransportType.Udp → config.allocation_transport ≡ TransportType.Udp }
    requires callable { All (IsCallable config.allocation_transport) calls.now }
    ensures replies { IfOk result (λ replayed. replayed.replies.items ≡ (run transport local remote config seed calls.now).0) }
    ensures client { IfOk result (λ replayed. state_of replayed.client ≡ (run transport local remote config seed calls.now).1) }
{
    let client = TurnClient::allocate(alloc, transport, local, remote, config, seed)?;
    let (replies, client) = asked(alloc, client, calls)?;
    Ok(Replayed { replies, client })
}

/// The replies of the client to these calls, and the client after them.
fn asked<C: TurnClientApi>(
    alloc: Global,
    mut client: C,
    calls: &[Call],
) -> Result<(Vec<Reply>, C), AllocError>
    requires { All (IsCallable (C.state client).config.allocation_transport) calls.now }
    ensures replies { IfOk result (λ r. r.0.items ≡ replies_of (C.state client) calls.now) }
    ensures client { IfOk result (λ r. C.state r.1 ≡ state_after_all (C.state client) calls.now) }
{
    let replies = replies_to(alloc, &mut client, calls)?;
    Ok((replies, client))
}

/// Makes these calls in order.
pub(crate) fn replies_to<C: TurnClientApi>(
    alloc: Global,
    client: &mut C,
    calls: &[Call],
) -> Result<Vec<Reply>, AllocError>
    requires { All (IsCallable (C.state client.old).config.allocation_transport) calls.now }
    ensures replies { IfOk result (λ replies. replies.items ≡ replies_of (C.state client.old) calls.now) }
    ensures client { OnOk result (C.state client.new ≡ state_after_all (C.state client.old) calls.now) }
{
    let mut replies = Vec::with_capacity(alloc, calls.len())?;
    for call in calls {
        replies.push(reply_to(alloc, client, call)?)?;
    }
    Ok(replies)
}
