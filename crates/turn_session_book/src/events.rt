//! What a session reports.

use crate::answers::Outcome;
use crate::causes::Why;
use crate::keys::Key;
use crate::replies::ErrorReply;
use std::net::SocketAddr;
use turn_types::AddressFamily;

/// Something that happened in a session.
#[derive(Clone, Copy, Debug, PartialEq, Eq)]
pub enum Event {
    /// The first response of the server was received. Over a stream: it is connected.
    Heard,
    /// The relay is up: its first relayed address, and this client's address as the server sees it, if the server says it.
    Up(SocketAddr, Option<SocketAddr>),
    /// A further relayed address, of the other family.
    Also(SocketAddr),
    /// There is no relayed address of this family: the server's error, or `None` if there was no response. A session may also end
    /// without it: the client reports no family if the ALLOCATE that answers a challenge has no response, and `Over` has the cause.
    FamilyFailed(AddressFamily, Option<ErrorReply>),
    /// The session is about to end for this cause, and deletes its allocation. `Over` follows.
    Ending(Why),
    /// The outcome of the request with this ticket and key. A channel that is bound while the IP address of its peer is not
    /// permitted has that of the permission, which is requested for it then.
    Outcome(u32, Key, Outcome),
    /// A grant that was kept has ended: what became of the request to renew it.
    Lost(Key, Outcome),
    /// A grant that was released has ended.
    Expired(Key),
    /// A grant was refreshed, or with `None` the allocation.
    Refreshed(Option<Key>),
    /// The check with this ticket: whether the server responded, and this client's address as it says.
    Checked(u32, bool, Option<SocketAddr>),
    /// This client has another address than before, as the server sees it: a NAT has given it a new one.
    Moved(SocketAddr),
    /// The session has ended. No event follows.
    Over(Why),
}
