//! Laws of streams. Their functions do nothing: what they ensure is the law.

ghost use Rattle.std.specs.Prelude.{◌≡◌, ℕ, true, false, ◌^◌, ◌<◌, ◌≤◌, List, [], ◌∷◌, ◌++◌, length, take, drop, Some, None};
ghost use Rattle.std.specs.List.{concat};
ghost use Rattle.turn_stun.specs.Message.{Attribute, IsMessage};
ghost use Rattle.turn_types.specs.Channel.{channel_frame};
ghost use Rattle.turn_types.specs.Cuts.{behind, drained, fed_each};
ghost use Rattle.turn_types.specs.Frames.{Frames, AreFrames, IsFrame, IsMessageFrame, IsChannelFrame, frame_len, frames_of};
ghost use Rattle.turn_types.specs.Streams.{Mode, size_in, Call, GivesFrames, broken_stream, framed, next_frame, run_of, bytes_in};
ghost use Rattle.turn_types.specs.Streams.Mode.{Framed};

/// The law of cuts: code that takes the frames of a stream one after the other, in a state that may
/// change with each, reaches the same state, has the same outputs and leaves the same rest wherever the
/// network cut the stream.
///
/// The state decides what the bytes after it are: frames, a peer's payload byte by byte (then a stream's
/// payloads are the same once they are joined), or nothing.
pub fn same_for_any_cut<S, O>()
    ensures { (mode : S → Mode) (handle : S → List ℕ → S × List O) (state : S) (bytes : List ℕ) (pieces : List (List ℕ))
        → fed_each (λ s. size_in (mode s)) handle (drained (λ s. size_in (mode s)) handle state bytes) pieces
        ≡ drained (λ s. size_in (mode s)) handle state (bytes ++ concat pieces) }
{}

/// How `TurnTcpBuffer` relates to the law of cuts: while the bytes are frames, taking the next frame
/// (`poll_recv`, or `front` and `pass`) is the next step, and else each byte is a step of its own.
pub fn calls_take_one_frame<S, O>()
    // A frame that is returned is processed, and then the rest.
    ensures frame { (mode : S → Mode) (handle : S → List ℕ → S × List O) (state : S) (bytes frame : List ℕ) → mode state ≡ Framed
        → (next_frame (framed bytes)).frame ≡ Some frame
        → drained (λ s. size_in (mode s)) handle state bytes
        ≡ behind (handle state frame).1 (drained (λ s. size_in (mode s)) handle (handle state frame).0 (next_frame (framed bytes)).after.bytes) }
    // Less than a frame stays buffered.
    ensures waits { (mode : S → Mode) (handle : S → List ℕ → S × List O) (state : S) (bytes : List ℕ) → mode state ≡ Framed
        → (next_frame (framed bytes)).frame ≡ None → (next_frame (framed bytes)).after.is_broken ≡ false
        → drained (λ s. size_in (mode s)) handle state bytes ≡ record { state = state; given = []; rest = bytes } }
    // The byte that breaks the stream is processed alone.
    ensures breaks { (mode : S → Mode) (handle : S → List ℕ → S × List O) (state : S) (bytes : List ℕ) → mode state ≡ Framed
        → (next_frame (framed bytes)).after.is_broken ≡ true
        → drained (λ s. size_in (mode s)) handle state bytes
        ≡ behind (handle state (take 1 bytes)).1 (drained (λ s. size_in (mode s)) handle (handle state (take 1 bytes)).0 (drop 1 bytes)) }
    // Bytes that are not frames are processed one by one.
    ensures byte { (mode : S → Mode) (handle : S → List ℕ → S × List O) (state : S) (byte : ℕ) (bytes : List ℕ) → (mode state ≡ Framed → ⊥)
        → drained (λ s. size_in (mode s)) handle state (byte ∷ bytes)
        ≡ behind (handle state (byte ∷ [])).1 (drained (λ s. size_in (mode s)) handle (handle state (byte ∷ [])).0 bytes) }
{}

/// The frames of a stream are one list, and there is no other: whole frames one after the other, and a
/// rest that no whole frame begins.
pub fn frames_are_unique()
    ensures are { (bytes : List ℕ) → AreFrames bytes (frames_of bytes) }
    ensures only { (bytes : List ℕ) (cut : Frames) → AreFrames bytes cut → cut ≡ frames_of bytes }
{}

/// A frame that was written is cut out again, whatever follows it: no frame begins another.
pub fn frames_are_found()
    ensures found { (frame more : List ℕ) → IsFrame frame → frame_len (frame ++ more) ≡ Some (length frame) }
    ensures alone { (frame other more rest : List ℕ) → IsFrame frame → IsFrame other → frame ++ more ≡ other ++ rest → frame ≡ other }

    // What this crate writes are frames.
    ensures message { (bytes : List ℕ) (type id : ℕ) (attributes : List Attribute) → IsMessage bytes type id attributes → IsMessageFrame bytes }
    ensures channel { (id : ℕ) (payload : List ℕ) → 0x4000 ≤ id → id < 0x8000 → length payload < 2 ^ 16 → IsChannelFrame (channel_frame id payload) }
{}

/// Over any calls of `TurnTcpBuffer` that succeed, the frames that it returns are the frames of all the
/// bytes received, in order, except those that are still buffered, and it keeps the rest. Once bytes
/// with which no frame begins have broken it, it has returned all the frames there are.
///
/// The calls are `incoming_tcp` (`Piece`), `feed` (`Feed`) and `poll_recv` (`Poll`). `pass` is a `Poll`
/// too, whose frame is the one that `front` returned before it.
pub fn calls_give_frames()
    ensures all { (bytes : List ℕ) (calls : List Call) → GivesFrames (bytes ++ bytes_in calls) (run_of (framed bytes) calls) }
    ensures broken { (calls : List Call) → run_of broken_stream calls ≡ record { given = []; after = broken_stream } }
{}
