//! Which requests a call makes.

ghost use Rattle.std.specs.Prelude.{◌⊎◌, ℕ};
ghost use Rattle.std.specs.List.{Contains};
ghost use Rattle.turn_agent.specs.declared.transaction.Transaction.{Transaction};
ghost use Rattle.turn_client_api.specs.State.{State};
ghost use Rattle.turn_client_api.specs.declared.grant.Listing.{Listing};
ghost use Rattle.turn_client_api.specs.Steps.{Leaves};
ghost use Rattle.turn_client_api.specs.declared.call.Call.{Call};
ghost use Rattle.turn_client_laws.specs.LawsRequests.{IsListingOf, IsOldOrMade, WaitsForItsTurn};

/// What is outstanding or listed after a call was so before, or the call made the request, which is
/// outstanding then: under the ID that was the next one, to the server, and with the bytes that request its
/// purpose. A call of the caller requests what its name says, `poll_transmit` requests the first ALLOCATE
/// or refreshes the first grant that is due, and it retransmits requests, or begins the waits of one that it
/// sends for the first time, if requests are timed so. In `recv` and `poll_recv` a
/// message that is processed causes it: the new request has a purpose of the request that the message
/// answers, and is listed for purposes of that one alone (RFC 8489, section 9.2.5; RFC 8656, section 7.4).
/// No other call makes one.
pub fn requests_are_made()
    ensures request { (call : Call) (s t : State) (x : Transaction) → Leaves call s t → Contains t.transactions x → IsOldOrMade call s x }
    ensures listing { (call : Call) (s t : State) (l : Listing) → Leaves call s t → Contains t.listed l → Contains s.listed l ⊎ IsListingOf call s l }
{}

/// If a client's requests are timed from when they are sent, one that is queued is neither retransmitted nor
/// timed out: its first copy leaves in its turn alone, with which its waits begin (RFC 8489, section 6.2.1;
/// our choice, and off by default). `requests_are_made` says from when on a request waits.
pub fn unsent_requests_wait()
    ensures { (made now : ℕ) (s : State) (x : Transaction) → WaitsForItsTurn made now s x }
{}
