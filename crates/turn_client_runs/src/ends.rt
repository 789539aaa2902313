//! Why a client has ended, and that it tells so.

ghost use Rattle.std.specs.Prelude.{◌≡◌, ◌∷◌, [], ℕ, List};
ghost use Rattle.std.specs.declared.net.socket_addr.SocketAddr.{SocketAddr};
ghost use Rattle.turn_stun.specs.declared.transport.TransportType.{TransportType};
ghost use Rattle.turn_types.specs.declared.family.AddressFamily.TheVariants.{IPV4};
ghost use Rattle.turn_client_api.specs.Config.{Config};
ghost use Rattle.turn_client_api.specs.Effect.{closed};
ghost use Rattle.turn_client_api.specs.Poll.{poll_step};
ghost use Rattle.turn_client_api.specs.State.{State, initial, seconds};
ghost use Rattle.turn_client_api.specs.Steps.{state_after_all};
ghost use Rattle.turn_client_api.specs.declared.poll.TurnPollRet.TheVariants as Do;
ghost use Rattle.turn_client_laws.specs.LawsRows.{relayed_v4};
ghost use Rattle.turn_client_runs.specs.EndRows.{lost, lost_and_told, with_close, with_one, with_reply};
ghost use Rattle.turn_client_runs.specs.Ends.{TellsItsEnd};
ghost use Rattle.turn_client_runs.specs.Holds.{HoldsOfRuns};

/// Where `poll` answers that the client has ended, one of the calls up to it ended the client, which has ended
/// since: `protocol_error`; a message that refuses all addresses that were requested, confirms that the
/// allocations are deleted, cannot be trusted while an address is requested, or is one challenge too many; or
/// a `poll` at which no response to an ALLOCATE had come in time, or the expiry of each allocation had passed
/// (RFC 8656, sections 7 and 8; RFC 8489, sections 6.2 and 9.2). `protocol_error` and each such message end the
/// client for good. And `poll` answers so of each client that has ended, once all events, replies and closes are
/// taken.
pub fn ends_are_told()
    ensures ends { HoldsOfRuns TellsItsEnd }
{}

/// Worked ends: a client that has lost its server answers that it has ended once its event is taken, and before that it has
/// the caller poll it again at once. A client with one allocation has ended at the allocation's expiry, and a second
/// before it has not: it sends the refresh that is late. With a reply to send it has the caller poll it again, too, and
/// a data connection is closed first, but not once the client was closed.
pub fn ends_are_worked()
    ensures told { (transport : TransportType) (local remote : SocketAddr) (config : Config) (seed : List ℕ) → config.address_families ≡ IPV4 ∷ []
        → (poll_step 0 (state_after_all (initial transport local remote config seed) lost_and_told)).0 ≡ Do.Closed }
    ensures pending { (transport : TransportType) (local remote : SocketAddr) (config : Config) (seed : List ℕ) → config.address_families ≡ IPV4 ∷ []
        → (poll_step 0 (state_after_all (initial transport local remote config seed) lost)).0 ≡ Do.WaitUntil 0 }
    ensures expired { (s : State) → (poll_step (seconds 600) (with_one s)).0 ≡ Do.Closed }
    ensures living { (s : State) → (poll_step (seconds 599) (with_one s)).0 ≡ Do.WaitUntil (seconds 599) }
    ensures replying { (s : State) → (poll_step 0 (with_reply s)).0 ≡ Do.WaitUntil 0 }
    ensures closing { (s : State) → (poll_step 0 (with_close s)).0 ≡ Do.TcpClose relayed_v4 s.remote }
    ensures shut { (s : State) → (poll_step 0 (closed (with_close s))).0 ≡ Do.Closed }
{}
