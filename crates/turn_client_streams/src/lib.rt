//! The streams of a TURN client over TCP: the control connection and the data connections (RFC 8656,
//! section 3.1, and RFC 6062), each with its buffered bytes. No IO.
//!
//! ```text
//!  piece --feed--> | control connection | --front--> a STUN message or a ChannelData message
//!  piece --feed--> | data connection    | --front--> messages, and once it is bound --into_bytes--> data of its peer
//! ```
//!
//! Begin with [`Streams`], the list of a client's streams. A stream is taken out of it while one of its
//! frames is processed, and put back: the frame is read in place, and the code that processes it may
//! change the list meanwhile.
//!
//! ```rust
//! if let Some(mut stream) = streams.take_at(local) {
//!     if let Front::Frame(kind, frame) = stream.front() {
//!         handle(kind, frame);
//!         let len = frame.len();
//!         stream.pass(len);
//!     }
//!     streams.put(stream);
//! }
//! ```
//!
//! What a frame does to the client is left to the crates above.
#![tactic(auto)]

mod buffered;
mod front;
mod streams;

pub use buffered::BufferedStream;
pub use front::{FrameKind, Front};
pub use streams::Streams;
