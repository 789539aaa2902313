//! Worked pieces of streams, and datagrams.

ghost use Rattle.std.specs.Prelude.{true, ◌≡◌, ◌∷◌, ◌++◌, List, [], ℕ, Some, None};
ghost use Rattle.turn_auth.specs.declared.validation.Validation.TheVariants.{Validated, Refused};
ghost use Rattle.turn_auth.specs.declared.integrity.IntegrityAlgorithm.TheVariants.{Sha1};
ghost use Rattle.turn_client_api.specs.State.{State, seconds};
ghost use Rattle.turn_client_api.specs.declared.event.TurnEvent.TheVariants.{TcpConnected, TcpConnectFailed};
ghost use Rattle.turn_client_api.specs.Payloads.{Handled, Ignored, PeerData};
ghost use Rattle.turn_client_laws.specs.LawsRows.{peer};
ghost use Rattle.turn_client_laws.specs.LawsReceived.{WhenJudged, abc, abc_frame, behind_half, bind_success, client, data_end, datagram_in, from_peer};
ghost use Rattle.turn_client_laws.specs.LawsReceived.{half_header, hello, hello_message, icmp_message, over_tcp, server_piece_step, poll_recv_at_1_s, relayed};
ghost use Rattle.turn_client_laws.specs.LawsReceived.{reported, second_peer_message, unknown_message, with_bound, with_channel, with_waiting};

/// The effects of pieces of the control stream (RFC 8656, sections 11.4, 11.6, 12.5 and 12.6), each at a
/// client with a channel to the peer.
pub fn pieces_are_cut()
    // A whole frame, without its padding, is a range of the piece, and nothing is left in the stream.
    ensures frame { (s : State) → server_piece_step client abc_frame (with_channel s) ≡ (PeerData (relayed abc (Some 4)), with_channel s) }
    // Half of a header is kept.
    ensures half { (s : State) → (server_piece_step client half_header (with_channel s)).0 ≡ Handled }
    // With the rest it is a frame, whose data is owned.
    ensures joined { (s : State) → server_piece_step client behind_half (server_piece_step client half_header (with_channel s)).1
        ≡ (PeerData (relayed abc None), with_channel s) }
    // Of two frames in one piece the second is polled.
    ensures second { (s : State) → poll_recv_at_1_s (server_piece_step client (abc_frame ++ hello_message) (with_channel s)).1
        ≡ (Some (relayed hello None), with_channel s) }
    // A message is cut from the stream like a frame.
    ensures message { (s : State) → server_piece_step client hello_message (with_channel s) ≡ (PeerData (relayed hello (Some 36)), with_channel s) }
    ensures report { (s : State) → server_piece_step client icmp_message (with_channel s) ≡ (reported 3 4 1280, with_channel s) }
    // The frame before is data, and the stream breaks after it.
    ensures unbroken { (s : State) → (server_piece_step client (abc_frame ++ 0xc0 ∷ []) (with_channel s)).0 ≡ PeerData (relayed abc (Some 4)) }
    ensures broken { (s : State) → (server_piece_step client abc_frame (server_piece_step client (abc_frame ++ 0xc0 ∷ []) (with_channel s)).1).0 ≡ Handled }
    // An empty piece ends the stream.
    ensures ended { (s : State) → (server_piece_step client [] (with_channel s)).0 ≡ Handled }
    ensures gone { (s : State) → (server_piece_step client abc_frame (server_piece_step client [] (with_channel s)).1).0 ≡ Ignored }
{}

/// The effects of pieces of a data connection (RFC 6062, section 4.3).
pub fn connections_are_bound()
    // All of a piece of a bound connection is data, also bytes with which no frame begins.
    ensures bound { (s : State) → server_piece_step data_end (0xff ∷ 0x00 ∷ []) (with_bound s)
        ≡ (PeerData (from_peer (0xff ∷ 0x00 ∷ []) (Some 0)), with_bound s) }
    // A reply and data of the peer come in one piece: the reply is processed, and if it is a signed success
    // the connection is bound, and the data is polled.
    ensures handled { (byte : ℕ → ℕ) (text : List ℕ) (s : State) → (server_piece_step data_end (bind_success byte ++ hello) (with_waiting text s)).0 ≡ Handled }
    ensures behind { WhenJudged (Validated Sha1) hello (λ r. (poll_recv_at_1_s r.1).0 ≡ Some (from_peer hello None)) }
    ensures event { WhenJudged (Validated Sha1) [] (λ r. r.1.events ≡ TcpConnected peer ∷ []) }
    // A reply with a wrong signature binds nothing: the connection is to be closed, and no data is
    // returned.
    ensures refused { WhenJudged (Refused true) hello (λ r. r.1.closes ≡ data_end ∷ []) }
    ensures failed { WhenJudged (Refused true) hello (λ r. r.1.events ≡ TcpConnectFailed peer ∷ []) }
    ensures silent { WhenJudged (Refused true) hello (λ r. (poll_recv_at_1_s r.1).0 ≡ None) }
{}

/// The effects of datagrams (RFC 8656, sections 11.4 and 12.6), each at a client with a permission for
/// the peer, and a channel to it.
pub fn datagrams_are_judged()
    ensures data { (s : State) → datagram_in hello_message (with_channel s) ≡ (PeerData (relayed hello (Some 36)), with_channel s) }
    // Padding after a frame is not needed, but all of its data is.
    ensures frame { (s : State) → datagram_in (0x40 ∷ 0x00 ∷ 0x00 ∷ 0x03 ∷ abc) (with_channel s) ≡ (PeerData (relayed abc (Some 4)), with_channel s) }
    ensures short { (s : State) → datagram_in (0x40 ∷ 0x00 ∷ 0x00 ∷ 0x05 ∷ abc) (with_channel s) ≡ (Ignored, with_channel s) }
    // No other number leads to the peer.
    ensures unbound { (s : State) → datagram_in (0x50 ∷ 0x00 ∷ 0x00 ∷ 0x03 ∷ abc) (with_channel s) ≡ (Ignored, with_channel s) }
    // An indication is ignored without the permission, with a second peer that is malformed, and with an
    // unknown comprehension-required attribute.
    ensures unpermitted { (s : State) → datagram_in hello_message (over_tcp [] [] s) ≡ (Ignored, over_tcp [] [] s) }
    ensures malformed { (s : State) → datagram_in second_peer_message (with_channel s) ≡ (Ignored, with_channel s) }
    ensures unknown { (s : State) → datagram_in unknown_message (with_channel s) ≡ (Ignored, with_channel s) }
{}
