//! The order of the inputs out of a stream.

ghost use Rattle.std.specs.Prelude.{◌≡◌, ◌++◌};
ghost use Rattle.turn_client_api.specs.State.{State};
ghost use Rattle.turn_client_api.specs.Steps.{state_after_all};
ghost use Rattle.turn_client_laws.specs.LawsReceived.{abc_frame, client, half_header, hello_message, with_channel};
ghost use Rattle.turn_client_runs.specs.Holds.{HoldsOfRuns};
ghost use Rattle.turn_client_runs.specs.InOrder.{InputsFollow, bytes_out_of, held_at};
ghost use Rattle.turn_client_runs.specs.Inputs.{handled_in};
ghost use Rattle.turn_client_runs.specs.SentRows.{two_frames_and_half};

/// The inputs out of a stream of a client over TCP are the frames of all that arrives for it, in order, none
/// twice and none left out (RFC 8489, section 6.2.2; RFC 8656, section 12.5). In any consecutive calls of which
/// none opens the stream: what it held before them, and then what arrived for it in them, is what the inputs out
/// of it took, and then the rest. It holds the rest, unless it is broken: then it was so before them, or no frame
/// begins as the rest does. So from
/// the first call on for the control connection, and from its opening on for a data connection, all that
/// arrived is taken or is still held. `only_permitted_is_received` and the others speak of these inputs.
pub fn inputs_follow_each_other()
    ensures { HoldsOfRuns InputsFollow }
{}

/// The inputs of one piece and of a poll, so that the check computes the definitions: two frames are taken, and
/// half of a header is held.
pub fn inputs_are_worked()
    ensures taken { (s : State) → bytes_out_of client (handled_in (with_channel s) two_frames_and_half) ≡ abc_frame ++ hello_message }
    ensures held { (s : State) → held_at client (state_after_all (with_channel s) two_frames_and_half) ≡ half_header }
{}
