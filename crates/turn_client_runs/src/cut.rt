//! One stream returns the same, in whatever pieces it is received.

ghost use Rattle.std.specs.Prelude.{◌≡◌, ℕ, true, List, [], ◌∷◌, ◌++◌, None};
ghost use Rattle.std.specs.declared.net.socket_addr.SocketAddr.{SocketAddr};
ghost use Rattle.turn_stun.specs.declared.transport.TransportType.TheVariants.{Tcp};
ghost use Rattle.turn_auth.specs.declared.validation.Validation.TheVariants.{Refused, Validated};
ghost use Rattle.turn_auth.specs.declared.integrity.IntegrityAlgorithm.TheVariants.{Sha1};
ghost use Rattle.turn_types.specs.Streams.Mode.{Broken};
ghost use Rattle.turn_client_api.specs.Config.{Config};
ghost use Rattle.turn_client_api.specs.State.{State, initial};
ghost use Rattle.turn_client_api.specs.declared.call.Call.{Call};
ghost use Rattle.turn_client_laws.specs.LawsStreams.{AreApart};
ghost use Rattle.turn_client_laws.specs.LawsReceived.{abc, abc_frame, behind_half, client, data_end, from_peer, half_header, hello, hello_message, relayed};
ghost use Rattle.turn_client_laws.specs.LawsReceived.{with_bound, with_channel};
ghost use Rattle.turn_client_runs.specs.Cut.{AreNonempty, GetsQuiet, AwaitsBytes, IsSameForAnyCut, IsSameInRuns, bytes_at, fed_pieces, mode_at, read_from_front};
ghost use Rattle.turn_client_runs.specs.Cut.{whole, whole_of};
ghost use Rattle.turn_client_runs.specs.CutRows.{WhenCut, abc_and_hello, byte_and_hello, pieces_at, two_bytes, whole_at};
ghost use Rattle.turn_client_api.specs.Steps.{state_after_all};

/// The whole of what is received over a stream is read from its start (RFC 8656, section 12.5; RFC 6062,
/// section 4.3). For a control connection, or a data connection that waits to be bound: the first frame is
/// processed, and then the rest in the state that it left; less than a frame is left; and bytes that no
/// frame begins with break the stream, which drops them. On a bound stream each byte is the peer's. For a
/// broken one, and if there is none, nothing is returned, and a client that is quiet stays unchanged.
pub fn wholes_are_frames()
    ensures front { (local : SocketAddr) (now : ℕ) (s : State) (bytes : List ℕ) → whole local now s bytes ≡ read_from_front local now s bytes }
    ensures unmeant { (local : SocketAddr) (now : ℕ) (s : State) (bytes : List ℕ) → AwaitsBytes s → mode_at local s ≡ Broken
        → whole_of local now s bytes ≡ ([], s) }
{}

/// A client over TCP is quiet when it is new, after any calls once it is polled and returns nothing, and,
/// if it was quiet before, after pieces that were each polled up to the first none. So is any client over
/// TCP whose streams have distinct local addresses, as those of every client have, once it is polled and
/// returns nothing.
pub fn polled_clients_are_quiet()
    ensures initial { (local remote : SocketAddr) (config : Config) (seed : List ℕ) → AwaitsBytes (initial Tcp local remote config seed) }
    ensures run { (local remote : SocketAddr) (config : Config) (seed : List ℕ) (calls : List Call)
        → GetsQuiet (state_after_all (initial Tcp local remote config seed) calls) }
    ensures polled { (s : State) → s.transport ≡ Tcp → AreApart s → GetsQuiet s }
    ensures fed { (local : SocketAddr) (pieces : List (List ℕ)) (now : ℕ) (s : State) → AwaitsBytes s → AwaitsBytes (fed_pieces local pieces now s).1 }
{}

/// The pieces of one stream that a quiet client receives at one time, none of them empty and each followed
/// by `poll_recv` until it returns nothing, return what all their bytes return, and leave exactly the state
/// that these leave (RFC 8656, section 12.5; RFC 6062, section 4.3). Only the joined bytes are on the other
/// side, so any two cuts agree. Payloads of the control connection agree one by one, those of a data
/// connection once they are joined. That covers a connection that is bound by a reply with data after it or
/// with frames before it, one whose bind fails, a stream that breaks or is broken, and a local address
/// without a stream. Not covered are the results `Handled` and `Ignored`, and ICMP packets, which only
/// `recv` returns.
pub fn streams_give_the_same_for_any_cut()
    ensures { (local : SocketAddr) (pieces : List (List ℕ)) (now : ℕ) (s : State) → AwaitsBytes s → AreNonempty pieces → IsSameForAnyCut local pieces now s }
{}

/// The same for calls as they are in a run: for each piece, none of them empty, a `recv` from the server,
/// and then `poll_recv` up to the first that returns nothing.
pub fn runs_give_the_same_for_any_cut()
    ensures { (local : SocketAddr) (pieces : List (List ℕ)) (now : ℕ) (s : State) → AwaitsBytes s → IsSameInRuns local pieces now s }
{}

/// The results of a few streams, so that the check computes the definitions: a frame that is cut in its
/// header, and a message after it; less than a frame, which is buffered; a byte with which no frame begins;
/// bytes of a bound data connection; and a reply to CONNECTION_BIND, cut in two, with data after it, also
/// with a frame before it, which is ignored, and with a wrong signature.
pub fn streams_are_worked()
    ensures whole { (s : State) → whole_at client (abc_frame ++ hello_message) (with_channel s) ≡ (abc_and_hello, with_channel s) }
    ensures cut { (s : State) → pieces_at client (half_header ∷ (behind_half ++ hello_message) ∷ []) (with_channel s) ≡ (abc_and_hello, with_channel s) }
    ensures rest { (s : State) → bytes_at client (whole_at client (abc_frame ++ half_header) (with_channel s)).1 ≡ half_header }
    ensures broken { (s : State) → (whole_at client (abc_frame ++ 0xc0 ∷ abc_frame) (with_channel s)).0 ≡ relayed abc None ∷ [] }
    ensures gone { (s : State) → bytes_at client (whole_at client (0xc0 ∷ abc_frame) (with_channel s)).1 ≡ [] }
    ensures bound { (s : State) → pieces_at data_end ((0xff ∷ []) ∷ hello ∷ []) (with_bound s) ≡ (byte_and_hello, with_bound s) }
    ensures bytes { (s : State) → (whole_at data_end (0xff ∷ 0x00 ∷ []) (with_bound s)).0 ≡ two_bytes }
    ensures bind { WhenCut (Validated Sha1) [] 10 (λ given. given ≡ from_peer hello None ∷ []) }
    ensures before { WhenCut (Validated Sha1) abc_frame 10 (λ given. given ≡ from_peer hello None ∷ []) }
    ensures failed { WhenCut (Refused true) [] 10 (λ given. given ≡ []) }
{}
