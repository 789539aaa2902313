//! How a relay gets an address again, in parts that hold no session: when it is tried, which address of the server is asked, and after
//! which failures no other try is made. There is no IO: the caller passes in times and what has happened.
//!
//! ```text
//!  a try begins           -- begin ------> Tries      -- due -------> when the next one may begin
//!  a try fails            -- failed -----> Failures   --------------> whether no other try is made
//!  a server's addresses   -- add --------> Addresses  -- take_next -> in which order they are attempted
//!                         -- poll -------> Attempts   --------------> when the next attempt begins
//!  another server         -- follow -----> Redirects  --------------> whether it is asked
//!  what the caller does   -- add --------> Tasks      -- late ------> which of it has failed
//!  what a session had     -- want -------> Wanted     -- ask_next --> what the next one is asked for
//! ```
//!
//! [`causes::Cause`] is why a relay has no address, [`backoff::Backoff`] how long lies between its tries.
#![tactic(auto)]

pub mod addresses;
pub mod attempts;
pub mod backoff;
pub mod causes;
pub mod constants;
pub mod failures;
pub mod redirects;
pub mod tasks;
pub mod tries;
pub mod wanted;
