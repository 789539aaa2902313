//! Laws of causes.

ghost use Rattle.turn_session_laws.specs.CauseLaws.{EndsHaveCauses};

/// Why a client and its notes end. If the caller leaves, the cause is `Closed`. What is received ends nothing: only the next poll does,
/// by a grant whose renewal had no response over a stream, by an error while the allocation was requested which no signed response
/// has overruled in time, by what the server has said of an allocation whose client has ended, or without memory. A cause stays.
pub fn ends_have_causes()
    ensures { EndsHaveCauses }
{}
