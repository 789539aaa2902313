//! The peers whose data a call returns.

ghost use Rattle.std.specs.Prelude.{ℕ, List};
ghost use Rattle.turn_stun.specs.declared.transport.Transmit.{Transmit};
ghost use Rattle.turn_client_api.specs.State.{State};
ghost use Rattle.turn_client_api.specs.declared.state.Stream.{Stream};
ghost use Rattle.turn_client_api.specs.Payloads.{datagram_step};
ghost use Rattle.turn_client_api.specs.Streams.{frame_step, payload_in, poll_recv_step};
ghost use Rattle.turn_client_api.specs.Steps.{packet_step};
ghost use Rattle.turn_client_api.specs.declared.call.Call.TheVariants.{PollRecv, Recv};
ghost use Rattle.turn_client_laws.specs.LawsPeers.{IsDeliveredByInput, IsFromPermitted, IsMessageFromPermitted, IsReportedBy};

/// Data is returned only for a peer with an active permission, in a DATA indication that names it and that
/// a client in `Allocated` accepts (RFC 8656, sections 11.4 and 11.6), for the peer of an active channel,
/// in a ChannelData message with its number (section 12.6), or for the peer that a stream is bound to (RFC
/// 6062, section 4.3). It is exactly the value of the last DATA, the whole payload of the ChannelData
/// message or all bytes of the stream, with its place and transport. An ICMP packet is reported only for
/// such a DATA indication without DATA. An indication with an unknown comprehension-required attribute
/// returns nothing (RFC 8489, section 6.3.2). What `recv` and `poll_recv` return is what an input returns
/// that they process, in the state in which it is processed.
pub fn only_permitted()
    ensures datagram { (bytes : List ℕ) (now : ℕ) (s : State) → IsMessageFromPermitted bytes s (datagram_step bytes now s).0 }
    ensures frame { (stream : Stream) (frame : List ℕ) (now : ℕ) (s : State) → IsFromPermitted stream.mode frame s (frame_step stream frame now s).0 }
    ensures poll_recv { (now : ℕ) (s : State) → IsDeliveredByInput (poll_recv_step now s).0 (PollRecv now) s }
    ensures recv { (packet : Transmit (List ℕ)) (now : ℕ) (s : State) → IsDeliveredByInput (payload_in (packet_step packet now s).0) (Recv packet now) s }
    ensures icmp { (packet : Transmit (List ℕ)) (now : ℕ) (s : State) → IsReportedBy (packet_step packet now s).0 (Recv packet now) s }
{}
