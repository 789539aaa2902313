//! Laws of requests.

ghost use Rattle.turn_session_laws.specs.RequestLaws.{FewUnsent, RefusalsAreAccepted};

/// While eight requests of the client are queued and not sent, no request of the caller is made: a new one waits, and so do those
/// that wait, and the permission that one of them needs. What the session asks for by itself is not counted, a permission in doubt
/// of the allocation.
pub fn few_unsent()
    ensures { FewUnsent }
{}

/// A refusal, of a request or of a grant that was kept, has the error that was received last, and only one that the client has accepted
/// is that. With an allocation the client accepts what is signed.
pub fn refusals_are_accepted()
    ensures { RefusalsAreAccepted }
{}
