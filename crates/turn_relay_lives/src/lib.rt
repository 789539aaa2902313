//! The sessions of a relay that live at one time, each with its own socket to a server. There is no IO: the caller opens sockets,
//! passes in what they receive, and sends what the sessions have to send.
//!
//! ```text
//!  a socket is opened       -- add ------> Trying    several servers, or addresses of one, are tried at a time
//!  the first has a response -- choose ---> InUse     that session is used, and the others that try leave
//!  the relay is done with it -- leave ----> Leaving  its allocation is deleted, and then its socket is closed
//!  what is due              -- next -----> LifeStep
//! ```
//!
//! Begin with [`lives::Lives`].
#![tactic(auto)]

pub mod link;
pub mod live;
pub mod lives;
pub mod step;
