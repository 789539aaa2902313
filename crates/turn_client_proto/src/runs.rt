//! Whole runs of a client: a list of calls in, a list of replies out.

mod run;

pub use run::{Replayed, replay};
pub use turn_client_calls::{
    Call, PeerData, PermittedAddresses, RelayedAddresses, Reply, reply_to,
};
