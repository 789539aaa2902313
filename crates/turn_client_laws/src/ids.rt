//! The IDs of transactions.

ghost use Rattle.std.specs.Prelude.{◌≡◌, false};
ghost use Rattle.turn_client_api.specs.State.{State};
ghost use Rattle.turn_client_api.specs.Requests.{fresh_id, is_taken};

/// The next ID is free (RFC 8489, section 5: a new transaction has a new ID): no outstanding request has
/// it, no request that is still listed for its purpose, and no request of the server that is to be
/// answered.
pub fn drawn_ids_are_free()
    ensures { (s : State) → is_taken (fresh_id s) s ≡ false }
{}
