//! What a run writes to the server.

ghost use Rattle.std.specs.Prelude.{◌≡◌, [], ◌∷◌, Some};
ghost use Rattle.turn_stun.specs.declared.message.header.MessageClass.TheVariants.{Request};
ghost use Rattle.turn_stun.specs.declared.transport.TransportType.TheVariants.{Udp};
ghost use Rattle.turn_types.specs.declared.family.AddressFamily.TheVariants.{IPV4};
ghost use Rattle.turn_auth.specs.LongTerm.{Challenge};
ghost use Rattle.turn_client_api.specs.Requests.{fresh_id};
ghost use Rattle.turn_client_api.specs.State.{State};
ghost use Rattle.turn_client_api.specs.declared.grant.Purpose.TheVariants.{ForPermission};
ghost use Rattle.turn_client_laws.specs.LawsRows.{ip_of_peer};
ghost use Rattle.turn_client_runs.specs.Holds.{HoldsOfRuns};
ghost use Rattle.turn_client_runs.specs.Leaving.{OnlyOwnLeave, first_request, request_of, signed_as};
ghost use Rattle.turn_client_runs.specs.LeavingRows.{holding, new_over_udp, permission_sent};
ghost use Rattle.turn_client_runs.specs.PacedRows.{sent_at};

/// Whatever is called, each packet that `poll_transmit` gives is one of these messages: the first ALLOCATE, which is not
/// signed; another request for an allocation, a refresh of 1800 s, or a request for what one of the calls named, as a peer
/// (RFC 8656, sections 7.1, 8.1, 10.1 and 12.1; RFC 6062, section 4.3); a response to the server's request for a data
/// connection (RFC 6062, section 4.4); or a Binding indication without attributes. Its attributes are those of its kind, and
/// no others.
///
/// All but the first and the last are signed under a challenge that came in (RFC 8489, section 9.2): with the user, its realm
/// and its nonce, and for a response by the integrity alone. The password is in the key of that, and in nothing else.
pub fn only_own_messages_leave()
    ensures own { HoldsOfRuns OnlyOwnLeave }
{}

/// Two messages, so that the check computes the definitions: the first ALLOCATE of a new client, and a CREATE_PERMISSION
/// of a client that holds a challenge, for the peer that the caller named.
pub fn messages_are_worked()
    ensures first { (s : State) → sent_at 0 (new_over_udp s) ≡ Some (first_request Udp (IPV4 ∷ []) (fresh_id (new_over_udp s))) }
    ensures signed { (challenge : Challenge) (s : State) → permission_sent challenge s
        ≡ Some (signed_as s.config challenge Request (request_of Udp [] (ForPermission ip_of_peer) (fresh_id (holding challenge s)))) }
{}
