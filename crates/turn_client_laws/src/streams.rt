//! What the streams of a client over TCP hold.

ghost use Rattle.std.specs.Prelude.{◌≡◌, ◌≢◌, ℕ, ◌<◌, ◌≤◌, length, List, Option, All, Bool, None, IsSome};
ghost use Rattle.std.specs.declared.net.ip_addr.IpAddr.{IpAddr};
ghost use Rattle.std.specs.declared.net.socket_addr.SocketAddr.{SocketAddr};
ghost use Rattle.turn_stun.specs.declared.transport.TransportType.{TransportType};
ghost use Rattle.turn_client_api.specs.Answers.{event_step};
ghost use Rattle.turn_client_api.specs.Calls.{bind_channel_step, channel_kept_step, create_permission_step, delete_step};
ghost use Rattle.turn_client_api.specs.Calls.{permission_kept_step, protocol_error_step, send_to_step, tcp_connect_step};
ghost use Rattle.turn_client_api.specs.Poll.{poll_step};
ghost use Rattle.turn_client_api.specs.State.{State};
ghost use Rattle.turn_client_api.specs.declared.state.Stream.{Stream};
ghost use Rattle.turn_client_api.specs.declared.state.Mode.TheVariants.{Control, Broken};
ghost use Rattle.turn_client_api.specs.Streams.{max_steps, poll_recv_step, steps_until_payload};
ghost use Rattle.turn_client_api.specs.Receive.{connection_gone, piece_step, tcp_closed_step};
ghost use Rattle.turn_client_api.specs.Transmit.{transmit_step};
ghost use Rattle.turn_client_api.specs.declared.poll.Socket5Tuple.{Socket5Tuple};
ghost use Rattle.turn_client_laws.specs.LawsStreams.{AreApart, DrainsOrGives, NeedsMoreBytes};
ghost use Rattle.turn_client_laws.specs.LawsStates.{HoldsAtFirst, StaysInCalls};
ghost use Rattle.turn_client_laws.specs.StreamEffects.{BindsStream, LeavesStreams, OpensStream, SparesStreams};

/// `poll_recv` leaves nothing that it could process (RFC 8656, section 12.5): if it returns no payload, no
/// stream holds a whole frame, nor a bound one any byte, and each that is not broken holds less than the
/// longest frame, a message of 65,555 bytes. The same holds after a piece of the control stream that
/// returns nothing of a peer. It takes as many steps as it needs: more would give the same. With each
/// payload the streams of a client, which have distinct local addresses, hold fewer bytes: a caller that
/// polls until nothing is returned comes to an end.
pub fn streams_are_drained()
    ensures drained { (now : ℕ) (s : State) → (poll_recv_step now s).0 ≡ None → All NeedsMoreBytes (poll_recv_step now s).1.streams }
    ensures piece { (stream : Stream) (piece : List ℕ) (now : ℕ) (s : State) → stream.mode ≡ Control → DrainsOrGives (piece_step stream piece now s) }
    ensures short { (stream : Stream) → NeedsMoreBytes stream → stream.mode ≢ Broken → All (λ b. b < 256) stream.bytes → length stream.bytes < 65555 }
    ensures enough { (n now : ℕ) (s : State) → max_steps s ≤ n → steps_until_payload n now s ≡ poll_recv_step now s }
    ensures fewer { (now : ℕ) (s : State) → AreApart s → IsSome (poll_recv_step now s).0 → max_steps (poll_recv_step now s).1 < max_steps s }
{}

/// No two streams have one local address (RFC 6062, section 4.3: each data connection is a TCP connection
/// of its own), and a broken stream holds nothing. This holds for a new client and after every call, even
/// if memory allocation fails.
pub fn streams_stay_apart()
    ensures initial { HoldsAtFirst AreApart }
    ensures kept { StaysInCalls AreApart }
{}

/// A call that takes no input neither reads nor changes the streams, as a message does not
/// (`messages_leave_streams`): with others in their place it gives the same, and leaves those. So a client
/// can be run without streams, and these be held beside it. `one_stream_is_opened_or_bound` tells the two
/// exceptions.
pub fn calls_leave_streams()
    ensures delete { (now : ℕ) → SparesStreams (delete_step now) }
    ensures permission { (transport : TransportType) (ip : IpAddr) (now : ℕ) → SparesStreams (create_permission_step transport ip now) }
    ensures channel { (transport : TransportType) (peer : SocketAddr) (now : ℕ) → SparesStreams (bind_channel_step transport peer now) }
    ensures permission_kept { (transport : TransportType) (ip : IpAddr) (is_kept : Bool) → SparesStreams (permission_kept_step transport ip is_kept) }
    ensures channel_kept { (transport : TransportType) (peer : SocketAddr) (is_kept : Bool) → SparesStreams (channel_kept_step transport peer is_kept) }
    ensures connect { (peer : SocketAddr) (now : ℕ) → SparesStreams (tcp_connect_step peer now) }
    ensures closed { (local remote : SocketAddr) → LeavesStreams (tcp_closed_step local remote) }
    ensures gone { (local : SocketAddr) → LeavesStreams (connection_gone local) }
    ensures send { (transport : TransportType) (to : SocketAddr) (bytes : List ℕ) (now : ℕ) → SparesStreams (send_to_step transport to bytes now) }
    ensures poll { (now : ℕ) → SparesStreams (poll_step now) }
    ensures transmit { (now : ℕ) → SparesStreams (transmit_step now) }
    ensures event { SparesStreams event_step }
    ensures error { LeavesStreams protocol_error_step }
{}

/// Apart from bytes that are received, two things concern a stream, and each one alone: a data connection that
/// the caller opened gets one (RFC 6062, section 4.3), and a message on such a connection binds its stream to
/// the peer. Which one, and to which peer, is independent of the streams.
pub fn one_stream_is_opened_or_bound()
    ensures opened { (id : ℕ) (tuple : Socket5Tuple) (peer : SocketAddr) (local : Option SocketAddr) (now : ℕ) → OpensStream id tuple peer local now }
    ensures bound { (local : SocketAddr) (message : List ℕ) (now : ℕ) → BindsStream local message now }
{}
