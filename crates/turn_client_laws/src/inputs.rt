//! `recv` and `poll_recv` do what the inputs do that they process.

ghost use Rattle.std.specs.Prelude.{ℕ, false, List};
ghost use Rattle.std.specs.declared.net.socket_addr.SocketAddr.{SocketAddr};
ghost use Rattle.turn_client_api.specs.State.{State};
ghost use Rattle.turn_client_api.specs.declared.state.Stream.{Stream};
ghost use Rattle.turn_client_api.specs.Streams.{next_frame_step};
ghost use Rattle.turn_client_laws.specs.Handled.{stream_inputs_taken};
ghost use Rattle.turn_client_api.specs.Steps.{EndsWithoutMemory};
ghost use Rattle.turn_client_api.specs.declared.call.Call.{Call};
ghost use Rattle.turn_client_laws.specs.LawsHandled.{ProcessesInputs, EndsAmidInputs, IgnoresBytes, IgnoresStreams, IsInputOf, TakesInput};

/// The effect of a message is independent of the streams: with others it has the same effect, and leaves
/// those. The effect of a frame of any stream is independent of the buffered bytes.
pub fn messages_leave_streams()
    ensures message { (streams : List Stream) (message : List ℕ) (now : ℕ) (s : State) → IgnoresStreams streams message now s }
    ensures frame { (local : SocketAddr) (bytes frame : List ℕ) (stream : Stream) (now : ℕ) (s : State) → IgnoresBytes local bytes stream frame now s }
{}

/// A step of a stream takes at most one frame (RFC 8656, section 12.5): the first one. It is processed in
/// the state in which the stream holds nothing, and the bytes after it are put back.
pub fn inputs_are_frames()
    ensures { (stream : Stream) (now : ℕ) (s : State) → IsInputOf stream now s (stream_inputs_taken false stream now s) (next_frame_step stream now s) }
{}

/// `recv` and `poll_recv` process their inputs one after the other, each in the state that the one before
/// left, apart from the streams, of which none becomes bound; or the server closed a stream. If memory
/// allocation fails, the call processed some of these inputs from the first on, or none, and then ended
/// the client.
pub fn calls_process_inputs()
    ensures found { (call : Call) (s : State) → TakesInput call → ProcessesInputs call s }
    ensures none { (call : Call) (s t : State) → TakesInput call → EndsWithoutMemory call s t → EndsAmidInputs call s t }
{}
