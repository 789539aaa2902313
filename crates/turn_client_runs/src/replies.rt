//! Which replies are accepted in a run.

ghost use Rattle.std.specs.Prelude.{List};
ghost use Rattle.turn_client_api.specs.State.{State};
ghost use Rattle.turn_client_laws.specs.Handled.{Input};
ghost use Rattle.turn_client_api.specs.declared.call.Call.{Call};
ghost use Rattle.turn_client_runs.specs.Replies.{EachReply, EndsItsRequest, IsMadeBetween, IsMadeSince, IsMadeUntil, IsReplyInput, MakesNewOnesIn};

/// In a run a reply is accepted once (RFC 8489, section 6.3). Each that is accepted is to a request that is
/// outstanding when the reply is processed and is no longer so after it. However many calls follow, the ID
/// is outstanding again only if a new request was made under it since. So of two replies with one ID that a
/// run accepts, in one call or in two, the second is to a new request, which was made between them.
/// Otherwise a copy of a reply finds no request, and grants nothing
/// (`turn_client_laws::replies_count_once`, `copy`). No ID is outstanding after a run that was not so
/// before it and under which no call of the run made a request.
pub fn replies_count_once_in_runs()
    ensures ended { (s : State) (calls : List Call) → EachReply EndsItsRequest s calls }
    ensures again { (s : State) (call : Call) (calls : List Call) (one : Input) → IsReplyInput one → IsMadeSince s call calls one }
    ensures copy { (s : State) (call : Call) → IsMadeBetween s call }
    ensures later_copy { (s : State) (call : Call) (calls : List Call) (last : Call) → IsMadeUntil s call calls last }
    ensures drawn { (s : State) (calls : List Call) → MakesNewOnesIn s calls }
{}
