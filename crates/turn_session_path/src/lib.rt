//! Whether the path to the server still carries packets, and whether the server still knows the allocation, in parts that hold no
//! client. There is no IO: the caller passes in times and what it has received, and each part says what is due.
//!
//! ```text
//!  a check of the path   -- new ------> Round         -- poll -----> a request, a time, unanswered
//!  the end of a round    -- answered -> Probes        -- due ------> when the next probe begins
//!  an error, over UDP    -- failed ---> SocketErrors  -- poll -----> a Binding request, a time, the end
//!  no room, in a stream  -- full -----> FullStream    -- poll -----> a time, the end
//!  a doubt, an answer    -- doubt ----> Suspicion     -- poll -----> a signed request, a time, the end
//!  an unsigned 401       -- refused --> Credentials   -- poll -----> a time, the end
//! ```
//!
//! [`path::Path`] is the path to the server as one value, of a caller's `Round`, `Probes` with theirs, `SocketErrors` and
//! `FullStream`.
#![tactic(auto)]

pub mod asked;
pub mod constants;
pub mod credentials;
pub mod doubted;
pub mod full_stream;
pub mod path;
pub mod probed;
pub mod prober;
pub mod probes;
pub mod round;
pub mod socket_errors;
pub mod suspicion;
