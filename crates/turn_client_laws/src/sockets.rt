//! Worked data connections.

ghost use Rattle.std.specs.Prelude.{false, map, ◌≡◌, ◌∷◌, List, [], ℕ, Some, None, Ok, Err};
ghost use Rattle.turn_client_api.specs.State.{State, seconds};
ghost use Rattle.turn_client_api.specs.declared.grant.Origin.TheVariants.{ServerRequest};
ghost use Rattle.turn_client_api.specs.declared.state.Mode.TheVariants.{Control, Waiting};
ghost use Rattle.turn_client_api.specs.declared.error.TcpAllocateError.TheVariants.{AlreadyExists, NoAllocation};
ghost use Rattle.turn_client_api.specs.declared.event.TurnEvent.TheVariants.{TcpConnectFailed};
ghost use Rattle.turn_client_api.specs.declared.poll.TurnPollRet.TheVariants.{AllocateTcpSocket, TcpClose, WaitUntil};
ghost use Rattle.turn_client_api.specs.Payloads.{Handled, Ignored};
ghost use Rattle.turn_client_api.specs.Poll.{poll_step};
ghost use Rattle.turn_client_api.specs.Transmit.{transmit_step};
ghost use Rattle.turn_client_laws.specs.LawsRows.{peer, relayed_v4};
ghost use Rattle.turn_client_laws.specs.LawsMessages.{IfSigned, ms, offer_of, after_message};
ghost use Rattle.turn_client_laws.specs.LawsReceived.{client, data_end, empty_stream, server, with_waiting};
ghost use Rattle.turn_client_laws.specs.LawsSockets.{asked_to_connect, asked_without_peer, attempted, control, offered, opened, permission, relaying_tcp};

/// The effects of a peer's connection to the relayed address (RFC 6062, sections 4.4 and 5.3).
pub fn peers_may_connect()
    // With a permission the caller is to open a connection.
    ensures offered { (s : State) → after_message attempted (relaying_tcp (permission ∷ []) s) ≡ (Handled, offered s) }
    ensures reported { (s : State) → (poll_step (ms 100) (offered s)).0 ≡ AllocateTcpSocket 9 control peer }
    // Not a second time, nor without a permission.
    ensures again { (s : State) → after_message attempted (offered s) ≡ (Ignored, offered s) }
    ensures unpermitted { (s : State) → after_message attempted (relaying_tcp [] s) ≡ (Ignored, relaying_tcp [] s) }
    // A signed request makes an offer, which is to be answered.
    ensures asked { (s : State) → IfSigned asked_to_connect (relaying_tcp [] s) (λ r. r ≡ (Handled, relaying_tcp (offer_of (ServerRequest 7) ∷ []) s)) }
    // Without a peer it is refused at once.
    ensures refused { (s : State) → IfSigned asked_without_peer (relaying_tcp [] s) (λ r. map (λ q. q.is_request) r.1.queue ≡ false ∷ []) }
{}

/// The effects of a connection that the caller was to open (RFC 6062, section 4.3).
pub fn sockets_are_taken()
    // From the address of the control connection it is refused, and so is one to another peer.
    ensures taken { (s : State) → opened peer (Some client) s ≡ (Err AlreadyExists, offered s) }
    ensures unknown { (s : State) → opened relayed_v4 (Some data_end) s ≡ (Err NoAllocation, offered s) }
    // From an address of its own it is to be bound within 39.5 s, and has a stream.
    ensures answer { (s : State) → (opened peer (Some data_end) s).0 ≡ Ok tt }
    ensures streams { (s : State) → (opened peer (Some data_end) s).1.streams ≡ empty_stream client Control ∷ empty_stream data_end Waiting ∷ [] }
    ensures deadline { (s : State) → (poll_step (ms 200) (transmit_step (ms 200) (opened peer (Some data_end) s).1).1).0 ≡ WaitUntil (ms 39_650) }
    // If the caller has none, the offer is removed, and no event reports it.
    ensures none { (s : State) → (opened peer None s) ≡ (Ok tt, relaying_tcp (permission ∷ []) s) }
    // One that is not bound in time is to be closed.
    ensures expired { (text : List ℕ) (s : State) → (poll_step (seconds 39) (with_waiting text s)).0 ≡ TcpClose data_end server }
    ensures failed { (text : List ℕ) (s : State) → (poll_step (seconds 39) (with_waiting text s)).1.events ≡ TcpConnectFailed peer ∷ [] }
{}
