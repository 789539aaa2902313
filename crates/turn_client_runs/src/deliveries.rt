//! What a run returns of what peers sent.

ghost use Rattle.std.specs.Prelude.{◌≡◌, ◌++◌, [], None, Some};
ghost use Rattle.turn_client_api.specs.Payloads.{Ignored, PeerData};
ghost use Rattle.turn_client_api.specs.State.{State};
ghost use Rattle.turn_client_laws.specs.LawsReceived.{abc, abc_frame, client, datagram_in, hello, hello_message, over_tcp, poll_recv_at_1_s};
ghost use Rattle.turn_client_laws.specs.LawsReceived.{relayed, server_piece_step, with_channel};
ghost use Rattle.turn_client_runs.specs.Deliveries.{DatagramsAreReturned, InputsAreReturned, StreamsAreDrained};
ghost use Rattle.turn_client_runs.specs.Holds.{HoldsOfRuns};

/// Whatever is called, all data of peers is returned, once and in order. Over UDP a datagram of the server is returned by
/// its `recv`, and changes nothing, if it is a DATA indication of a peer whose IP address has an active permission, or a
/// ChannelData message of an active channel (RFC 8656, sections 11.4 and 12.6). Over TCP such a frame of the control
/// connection, and all that a bound connection holds, is returned by the call that processes it (RFC 6062, section 4.3);
/// and after a `poll_recv` that returned nothing no stream holds a whole frame, or a byte of a peer.
pub fn data_of_peers_is_returned()
    ensures datagrams { HoldsOfRuns DatagramsAreReturned }
    ensures inputs { HoldsOfRuns InputsAreReturned }
    ensures drained { HoldsOfRuns StreamsAreDrained }
{}

/// What is returned of a peer with a permission and a channel, so that the check computes the definitions: two frames in
/// one piece, one by `recv` and one by `poll_recv`, and then nothing. Without the grants nothing is returned.
pub fn deliveries_are_worked()
    ensures datagram { (s : State) → datagram_in abc_frame (with_channel s) ≡ (PeerData (relayed abc (Some 4)), with_channel s) }
    ensures first { (s : State) → (server_piece_step client (abc_frame ++ hello_message) (with_channel s)).0 ≡ PeerData (relayed abc (Some 4)) }
    ensures second { (s : State) → poll_recv_at_1_s (server_piece_step client (abc_frame ++ hello_message) (with_channel s)).1
        ≡ (Some (relayed hello None), with_channel s) }
    ensures last { (s : State) → poll_recv_at_1_s (with_channel s) ≡ (None, with_channel s) }
    ensures ungranted { (s : State) → datagram_in abc_frame (over_tcp [] [] s) ≡ (Ignored, over_tcp [] [] s) }
{}
