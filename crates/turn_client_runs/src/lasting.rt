//! No grant is lost while the server answers and the caller sends what is due.

ghost use Rattle.turn_client_runs.specs.InPieces.{PacketsAreEnough};
ghost use Rattle.turn_client_runs.specs.Late.{GrantedAreAnswered, OnTimeIsLateByNone};
ghost use Rattle.turn_client_runs.specs.LastingRuns.{GrantsLastBehind};
ghost use Rattle.turn_client_runs.specs.LastingBursts.{BurstsCostNothing, QueuedAreNotExtra, QueuesNeedNoRoom, QueuesNeedRoom};
ghost use Rattle.turn_client_runs.specs.LastingPeers.{HasRoomAt5Ms, HasRoomLateAt5Ms, PeersLast, PeersLastFarAhead};
ghost use Rattle.turn_client_runs.specs.CutRelayRows.{AskedRelayStaysUp, CutRelayStaysUp};
ghost use Rattle.turn_client_runs.specs.LastingRows.{RelayStaysUp};
ghost use Rattle.turn_client_runs.specs.LateRows.{LateRelayStaysUp};
ghost use Rattle.turn_client_runs.specs.RelayRows.{RelayStaysUpFromFirst};
ghost use Rattle.turn_client_runs.specs.Lasting.{DatagramsAreMessages, GrantsLast, RequestsSucceed, SuccessesEndRequests};

/// While the server answers and the caller is on time, no allocation, permission or channel is lost that is kept: what is
/// in force after some calls of a run is in force after all later ones, if none of those lets it go (RFC 8656, sections 8,
/// 9 and 12). A permission or channel that is requested, and not let go meanwhile, is in force once `delay` has passed.
///
/// Whatever the caller lets go (`set_permission_kept`, `set_channel_kept`) takes nothing else with it: it expires, and its
/// channel is reserved then. One that was let go before counts again once it is kept and its refresh time is yet to come:
/// where it is kept again before that time, from that call on, and else from its next success on, if that comes before it
/// expires.
///
/// Assumed of the caller: it takes each packet as soon as the client has one, as one does that takes all packets and calls
/// again at the time that `poll` returned (`runs_miss_no_deadline`). It requests permissions and channels, lets them go and
/// keeps them again, sends data, and never has more than `count` grants and `slots` queued packets; if requests are timed from
/// their first copies, any number is queued, and `slots` is 0 (`a_burst_costs_no_grant`). Of the server and the
/// network: a request, whether it was sent or waits in the queue, is answered within `delay` of when it was first made by
/// a signed success, however often it is lost and retransmitted, and however often the server requires another nonce for
/// it, which is no more in a row than the client answers (`max_stale_nonces`; RFC 8489, section 9.2.5). The delay is less
/// than all waits of a request (section 6.2.1); replies come in any order, and a REFRESH is granted for 600 s or more. Of
/// all: at most `extras` packets are retransmissions, requests that are made again after a challenge, or refreshes whose
/// grant expired before their success, as one may that was kept again late, within the time by which a refresh is ahead;
/// and `(count + slots + extras) * cadence + delay` is less than that time, where the cadence and that time are the
/// configured ones (`request_cadence`, and `refresh_ahead` or half of a lifetime). What strangers and peers send may come
/// in between, as long as it changes nothing. Times are at most 2^62 ns.
///
/// `behind` says the same of a caller that is late: what can be sent may wait for it for `late`, from the time at which it
/// could first be sent, or at which the packet before it was taken. Each packet then needs `cadence + late`, and the last one
/// leaves so much later: `(count + slots + extras) * (cadence + late) + delay + late` is less than that time. Channels may be
/// reserved where it begins. A stream may be cut anywhere, and a piece may complete any number of messages, each a success, a
/// challenge, or noise by its bytes. It says in addition that a permission or a channel which `create_permission` or `bind_channel`
/// accepted is in force once the delay is over, a channel under the number that was free, with the permission that
/// `bind_channel` requests where there is none; and that no `poll` returns that a client with an allocation has ended. A
/// caller that is on time is one that is late by nothing (`on_time`). What comes may be looked at packet by packet, where a
/// challenge is one by itself (`by_packets`). Of the server it is enough to assume that a success for
/// each request comes within the delay, whatever the client makes of it (`granted`).
///
/// It does not speak of errors, of `delete`, of data connections, or of memory allocations that fail. The other clauses are
/// what makes it speak of the server alone: a success ends its request, and a datagram of the server is processed as one
/// message.
pub fn grants_last_while_the_server_answers()
    ensures last { GrantsLast }
    ensures asked { RequestsSucceed }
    ensures behind { GrantsLastBehind }
    ensures on_time { OnTimeIsLateByNone }
    ensures by_packets { PacketsAreEnough }
    ensures granted { GrantedAreAnswered }
    ensures ended { SuccessesEndRequests }
    ensures datagrams { DatagramsAreMessages }
{}

/// A client over UDP with an allocation, and a server that grants what it requests: the client binds a channel, and for 700 s
/// the run keeps all premises of `grants_last_while_the_server_answers`. The allocation, the permission and the channel
/// are refreshed. So these premises can be met, and no grant stands only because it has not expired yet. The same holds of a
/// whole run from the first packet on: a handshake as that of `a_handshake_succeeds`, and then these calls, until 700 s.
/// A caller that sends a refresh 5 ms after it was due keeps those of `behind`, with that lateness. So does one over TCP whose
/// refresh has its success in two pieces, wherever it is cut, with data of a peer before its front and behind its back. The same
/// holds with a challenge in place of the success: the request is made again, and sent at once (`though_asked`).
pub fn a_relay_stays_up()
    ensures lasts { RelayStaysUp }
    ensures from_first { RelayStaysUpFromFirst }
    ensures though_late { LateRelayStaysUp }
    ensures though_cut { CutRelayStaysUp }
    ensures though_asked { AskedRelayStaysUp }
{}

/// A cadence of 5 ms keeps 4,096 peers: with the default time ahead (`refresh_ahead`) a client over UDP that has a channel and a
/// permission for each of them, and its allocation, meets the premises of `grants_last_while_the_server_answers` with 8,193
/// grants, 100 queued requests, 1,000 extra packets and a delay of 5 s, also where all refreshes are due at one time. So each
/// of the grants is in force after every run that keeps these premises and does not let it go. The room is there for any
/// client with that cadence and so many grants, if it refreshes a minute ahead or more and its allocations were granted for
/// two minutes or more. All of this holds of a caller that is late by 900 µs at most, too.
///
/// With refreshes 150 s ahead, the default of the packages for other languages, it holds of one that is late by 2 ms, though as
/// many packets are extra as there are grants, as if each refresh were lost once.
pub fn thousands_of_peers_stay_up()
    ensures room { HasRoomAt5Ms }
    ensures room_late { HasRoomLateAt5Ms }
    ensures last { PeersLast }
    ensures last_far_ahead { PeersLastFarAhead }
{}

/// If requests are timed from their first copies, the room that `grants_last_while_the_server_answers` needs has no place for a
/// burst: neither for requests that are queued, since refreshes leave before them, so `slots` may be 0 (`no_room`); nor for their
/// copies that have not left, since none of them is retransmitted, so none is an extra packet (`queued`). A client so set over UDP,
/// with an allocation, ten permissions and a cadence of 5 ms, keeps each of them that it does not let go in every run in which up to
/// 3,000 permissions more are requested, also all at one time, which takes 15 s, each request is answered within 35 s of its call,
/// and at most 1,000 packets are extra; the other premises are those of that law (`lasts`). Timed from their calls, `slots` counts
/// each that is queued (`room`), and those that have not left after 500 ms leave as retransmissions, and are extra packets.
pub fn a_burst_costs_no_grant()
    ensures queued { QueuedAreNotExtra }
    ensures no_room { QueuesNeedNoRoom }
    ensures room { QueuesNeedRoom }
    ensures lasts { BurstsCostNothing }
{}
