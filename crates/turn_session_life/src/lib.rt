//! The life of a session from its opening to its end, in parts that hold no client: what the server has said of the allocation, what
//! refuses it while it is requested, and how the session ends. There is no IO: the caller passes in times and what it has received.
//!
//! ```text
//!  a response to a request   -- answered -> Heard    -- no_address, end -> why there is no address, why the client has ended
//!  an unsigned error         -- refused --> Verdict  -- poll ------------> a time, the end
//!  the end, or the caller    -- leave ----> Life     -- report_over -----> what is to be reported
//!  the path to the server    -- poll -----> Watch    -- take_request ----> a request to send, a result to report
//! ```
#![tactic(auto)]

pub mod doubts;
pub mod heard;
pub mod life;
pub mod responses;
pub mod verdict;
pub mod watch;
