//! Laws of events.

ghost use Rattle.turn_session_laws.specs.EventLaws.{GrantedByEvent};

/// When events of the client are noted, each event that is added for the caller comes from one of them: that a key was granted only
/// from one that says so for this key, and that it was refused only by the error response that was received last.
/// `Answer::Granted` is only the answer to a request whose permission the client has, or whose channel it has bound.
pub fn granted_by_event()
    ensures { GrantedByEvent }
{}
