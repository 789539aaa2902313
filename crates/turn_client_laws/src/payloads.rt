//! Which payloads of peers a call returns.

ghost use Rattle.std.specs.Prelude.{◌≡◌, ℕ, List, option_to_list};
ghost use Rattle.turn_stun.specs.declared.transport.Transmit.{Transmit};
ghost use Rattle.turn_client_api.specs.State.{State};
ghost use Rattle.turn_client_api.specs.Streams.{payload_in, poll_recv_step};
ghost use Rattle.turn_client_api.specs.Steps.{packet_step};
ghost use Rattle.turn_client_api.specs.declared.call.Call.TheVariants.{Recv, PollRecv};
ghost use Rattle.turn_client_laws.specs.Handled.{Input, payloads_by};
ghost use Rattle.turn_client_laws.specs.LawsPeers.{IsPermittedInput};

/// `recv` and `poll_recv` return the payloads of the inputs that they process and no others: of a datagram,
/// of a DATA indication or a ChannelData message in a stream, and of the bytes of a bound stream (RFC 8656,
/// sections 11.4, 11.6 and 12.6; RFC 6062, section 4.3). Each has the place at which it lies in what the
/// caller passed in, or is owned, and its peer was permitted in the state in which the input was processed.
pub fn payloads_are_answered()
    ensures recv { (packet : Transmit (List ℕ)) (now : ℕ) (s : State)
        → payloads_by (Recv packet now) s ≡ option_to_list (payload_in (packet_step packet now s).0) }
    ensures poll_recv { (now : ℕ) (s : State) → payloads_by (PollRecv now) s ≡ option_to_list (poll_recv_step now s).0 }
    ensures let_in { (t : Input) → IsPermittedInput t }
{}
