//! Streams that are put back into the list.

ghost use Rattle.std.specs.Prelude.{◌≡◌};
ghost use Rattle.std.specs.List.{position};
ghost use Rattle.turn_agent.specs.Agent.{same_address};
ghost use Rattle.turn_client_api.specs.State.{State};
ghost use Rattle.turn_client_api.specs.Streams.{with_bytes};
ghost use Rattle.turn_client_streams.specs.Buffered.{with_content};
ghost use Rattle.turn_client_streams.specs.Held.{with_streams};

use crate::buffered::BufferedStream;
use crate::streams::Streams;

/// The place from which this stream was taken out.
fn place_of(list: &[BufferedStream], stream: &BufferedStream) -> Option<usize>
    ensures { result ≡ position (λ held. same_address held.local stream.now.local) list.now }
{
    list.iter().position(|held| held.local() == stream.local())
}

impl Streams {
    /// Puts the bytes of this stream, which was taken out, back into the one at the same local address.
    /// The mode in the list counts; if the stream is no longer there, the bytes are dropped.
    pub fn put(&mut self, stream: BufferedStream)
        ensures { (s : State) → with_streams self.new.list s ≡ with_bytes stream.local stream.bytes (with_streams self.old.list s) }
    {
        if let Some(place) = place_of(self.list.as_slice(), &stream) {
            self.list[place].hold(stream);
        }
    }
}

impl BufferedStream {
    /// Holds the bytes of another stream, in place of its own.
    pub(crate) fn hold(&mut self, other: BufferedStream)
        ensures { self.new ≡ with_content other.bytes self.old }
    {
        let BufferedStream { buffer, .. } = other;
        self.buffer = buffer;
    }
}
