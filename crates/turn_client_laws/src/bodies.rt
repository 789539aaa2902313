//! What a client's body may rely on, so that it does no needless work.

ghost use Rattle.std.specs.Prelude.{◌≡◌, ◌≢◌, ℕ, ◌<◌, ◌≤◌, ◌+◌, length, List, [], All, Some, None};
ghost use Rattle.turn_client_api.specs.State.{State};
ghost use Rattle.turn_client_api.specs.declared.state.Phase.TheVariants.{Requesting};
ghost use Rattle.turn_client_api.specs.declared.state.Stream.{Stream};
ghost use Rattle.turn_client_api.specs.Due.{least_due, expiry_times};
ghost use Rattle.turn_client_api.specs.Calls.{free_number};
ghost use Rattle.turn_client_api.specs.Poll.{expired_at, poll_step};
ghost use Rattle.turn_client_api.specs.Streams.{frame_step, poll_recv_step, next_frame_step};
ghost use Rattle.turn_client_laws.specs.Handled.{poll_recv_inputs};
ghost use Rattle.turn_client_laws.specs.LawsStreams.{NeedsMoreBytes};
ghost use Rattle.turn_client_laws.specs.LawsBodies.{AreTakenUpTo, IsAsideFrom, IsLeastFree, ReportsOfFailed, max_failures, soonest};

/// Before the earliest time at which a grant expires, time changes nothing unless a transaction timed out.
/// These times are the expiries of allocations, permissions and channels (RFC 8656, sections 8, 9 and 12),
/// the deadlines of data connections that wait to be bound (RFC 6062, section 4.3), and those just after
/// the time until which a channel is reserved. An expired allocation has none while a request for it is
/// pending, or its final expiry if requests are timed from when they are sent.
pub fn nothing_expires_early()
    ensures { (now : ℕ) (s : State) → All (λ time. now < time) (expiry_times s) → expired_at None now s ≡ s }
{}

/// For each event that a `poll` queues there is one grant fewer that can fail: so it queues at most as many
/// as there are grants that are neither allocations nor reserved channels. In `Requesting` it queues at
/// most one for each requested family (RFC 8656, section 7.1). A body can reserve room for them.
pub fn events_are_bounded()
    ensures granted { (now : ℕ) (s : State) → s.phase ≢ Requesting → ReportsOfFailed s (poll_step now s).1 }
    ensures requested { (now : ℕ) (s : State) → s.phase ≡ Requesting → length (poll_step now s).1.events ≤ length s.events + length s.families }
    ensures most { (s : State) → max_failures s ≤ length s.grants }
{}

/// The earliest time at which something is due is the minimum of its parts: the longest wait (our choice), or
/// the end of an allocation that is marked as expired, a queued request, a transaction (RFC 8489, section
/// 6.2.1), the expiry of a grant, and a refresh, which waits until the pause ends. A body can keep the minimum
/// of each part.
pub fn least_time_has_parts()
    ensures { (now : ℕ) (s : State) → least_due now s ≡ soonest now s }
{}

/// The number that a channel is bound to is the least from 4000 to 4FFF that no channel has, and there is
/// none only if all of them are taken (RFC 8656, section 12).
pub fn least_free_number_is_bound()
    ensures found { (number : ℕ) (s : State) → free_number s ≡ Some number → IsLeastFree number s }
    ensures only { (number : ℕ) (s : State) → IsLeastFree number s → free_number s ≡ Some number }
    ensures none { (s : State) → free_number s ≡ None → AreTakenUpTo 0x5000 s }
    ensures all { (s : State) → AreTakenUpTo 0x5000 s → free_number s ≡ None }
{}

/// If each stream waits for more bytes, `poll_recv` processes nothing, returns nothing and changes nothing
/// (RFC 8656, section 12.5).
pub fn drained_streams_rest()
    ensures step { (now : ℕ) (s : State) → All NeedsMoreBytes s.streams → poll_recv_step now s ≡ (None, s) }
    ensures handled { (now : ℕ) (s : State) → All NeedsMoreBytes s.streams → poll_recv_inputs now s ≡ [] }
{}

/// Processing the next frame of a stream leaves each stream from another local address unchanged and in its
/// place (RFC 6062, section 4.3: each data connection is a TCP connection of its own). So it makes none of
/// them ready, and those that were not ready need not be checked again.
pub fn inputs_leave_other_streams()
    ensures step { (stream : Stream) (now : ℕ) (s : State) → IsAsideFrom stream.local s (next_frame_step stream now s).1 }
    ensures frame { (stream : Stream) (frame : List ℕ) (now : ℕ) (s : State) → IsAsideFrom stream.local s (frame_step stream frame now s).1 }
{}
