//! The senders of the payloads of a run.

ghost use Rattle.std.specs.Prelude.{◌≡◌, List};
ghost use Rattle.turn_client_api.specs.State.{State};
ghost use Rattle.turn_client_api.specs.declared.call.Call.{Call};
ghost use Rattle.turn_client_runs.specs.Peers.{IcmpIsOfPermitted, ReceivesOnlyPermitted};
ghost use Rattle.turn_client_runs.specs.Inputs.{answered_in, payloads_in};

/// Every payload of a run is of a permitted peer: in the state in which the input was processed, the peer's
/// IP address had an active permission, the peer had an active channel, or the bytes are those of a stream
/// that was bound to it (RFC 8656, sections 11.4, 11.6 and 12.6; RFC 6062, section 4.3). It is exactly what
/// the DATA indication or the ChannelData message carries, or the bytes of the stream.
/// `bound_streams_have_their_success` says which success bound the stream. These payloads are all the data
/// of peers that `recv` and `poll_recv` return in the run, apart from ICMP reports, and such a report is
/// about a peer whose IP address had an active permission.
pub fn only_permitted_is_received()
    ensures let_in { (s : State) (calls : List Call) → ReceivesOnlyPermitted s calls }
    ensures answered { (s : State) (calls : List Call) → payloads_in s calls ≡ answered_in s calls }
    ensures icmp { (s : State) (calls : List Call) → IcmpIsOfPermitted s calls }
{}
