//! Laws about the lines of a trace.

ghost use Rattle.std.specs.Prelude.{◌≡◌, ◌≤◌, ◌^◌, ℕ, Ok};
ghost use Rattle.turn_stun.specs.declared.transport.TransportType.{TransportType};
ghost use Rattle.turn_client_api.specs.declared.call.Call.{Call};
ghost use Rattle.turn_lines.specs.Call.{call_of};
ghost use Rattle.turn_lines.specs.Line.{HasLine, call_line};

/// Parsing the line of a call gives that call, for each transport of the client's allocation. So no two
/// calls have the same line.
#[tactic(auto, using(crate::proofs::CallLemmas::call_is_read_again))]
pub fn a_call_is_read_again()
    ensures { (relays : TransportType) (idle : ℕ) (call : Call) → idle ≤ 2 ^ 62 → HasLine relays call → call_of relays (call_line idle call) ≡ Ok call }
{}
