//! Which replies are accepted, and under which transaction IDs requests are made.

ghost use Rattle.std.specs.Prelude.{ℕ, List};
ghost use Rattle.std.specs.declared.net.socket_addr.SocketAddr.{SocketAddr};
ghost use Rattle.turn_client_api.specs.State.{State};
ghost use Rattle.turn_client_api.specs.declared.grant.DataConnection.{DataConnection};
ghost use Rattle.turn_client_api.specs.Judgement.{bind_judgement, judgement_of};
ghost use Rattle.turn_client_api.specs.Steps.{Leaves};
ghost use Rattle.turn_client_api.specs.declared.call.Call.{Call};
ghost use Rattle.turn_client_laws.specs.LawsReplies.{BindsNothing, DrawsNewOnes, EndsBind, EndsForGood, EndsRequest, GrantsNothing, IsAccepted, IsAwaited};

/// A reply is accepted once (RFC 8489, section 6.3): one that is accepted is to an outstanding request,
/// which is then no longer outstanding. The same holds on a connection that waits to be bound. Over the
/// control connection a response to no outstanding request, such as a second copy, changes no grant; on a
/// connection that waits to be bound it binds none, and may end that connection.
pub fn replies_count_once()
    ensures outstanding { (message : List ℕ) (s : State) → IsAccepted (judgement_of s message) → IsAwaited message s }
    ensures ended { (message : List ℕ) (now : ℕ) (s : State) → EndsRequest message now s }
    ensures gone { (message : List ℕ) (now : ℕ) (s : State) → EndsForGood message now s }
    ensures bind_outstanding { (local : SocketAddr) (message : List ℕ) (s : State) → IsAccepted (bind_judgement s local message) → IsAwaited message s }
    ensures bind_ended { (c : DataConnection) (message : List ℕ) (now : ℕ) (s : State) → EndsBind c message now s }
    ensures copy { (message : List ℕ) (now : ℕ) (s : State) → GrantsNothing message now s }
    ensures binds_nothing { (local : SocketAddr) (message : List ℕ) (now : ℕ) (s : State) → BindsNothing local message now s }
{}

/// No call makes a request outstanding except under a new ID for it (RFC 8489, section 5: each request has
/// an ID of its own), even if memory allocation fails.
pub fn ids_are_drawn()
    ensures { (call : Call) (s t : State) → Leaves call s t → DrawsNewOnes call s t }
{}
