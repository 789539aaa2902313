//! What a run sends.

ghost use Rattle.std.specs.Prelude.{◌≡◌, Ok, Some};
ghost use Rattle.turn_client_api.specs.State.{State};
ghost use Rattle.turn_client_laws.specs.LawsReceived.{data_end};
ghost use Rattle.turn_client_runs.specs.Holds.{HoldsOfRuns};
ghost use Rattle.turn_client_runs.specs.Sent.{SendsToPeers, SendsToServer};
ghost use Rattle.turn_client_runs.specs.SentRows.{abc_frame_sent, abc_sent, sent_next_from, socket_named};

/// Whatever is called, each packet that `poll_transmit` gives goes to the server over the client's transport. A
/// CONNECTION_BIND goes over the data connection that it is to bind: from the local address that an earlier
/// accepted `allocated_tcp_socket` named, for the peer and the connection ID that it named (RFC 6062, section
/// 4.3). All else goes from the control address, and is no CONNECTION_BIND if the client is over TCP. Over UDP
/// a client has no other address.
///
/// What `send_to` gives goes to the server too. If the server relays over TCP, it is the data alone, over a data
/// connection that is bound to the peer that the call named. If it relays over UDP, it is from the control address:
/// a ChannelData message of the number of an active channel to that peer, before the channel's expiry (RFC 8656,
/// section 12.5), or a Send indication with that peer in its XOR-PEER-ADDRESS (RFC 8656, section 11.1).
pub fn packets_go_out()
    ensures server { HoldsOfRuns SendsToServer }
    ensures peers { HoldsOfRuns SendsToPeers }
{}

/// The addresses of two packets, so that the check computes the definitions: once the caller named the local
/// address of a data connection, the next packet goes from there; and data for a peer with a channel goes from
/// the control address, as a ChannelData message.
pub fn packets_are_worked()
    ensures bind { (s : State) → sent_next_from (socket_named s) ≡ Some data_end }
    ensures channel { (s : State) → abc_sent s ≡ Ok abc_frame_sent }
{}
