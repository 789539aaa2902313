//! What the server granted in a run.

ghost use Rattle.turn_client_laws.specs.LawsGranted.{IsActiveGrant};
ghost use Rattle.turn_client_runs.specs.Granted.{HaveReplies};

/// After any list of calls of a new client in which no memory allocation fails, each allocation (one that
/// is marked as expired too), active permission, active channel and bound data connection was granted in
/// them. One of the calls, a `recv` or a `poll_recv`, processed a message for it, at the time of the call:
/// a success that is signed under the realm, the key and the algorithm that are held then (RFC 8489,
/// section 9.2.5), over the control connection, and for a data connection over itself. Its bytes were
/// received by `recv`: as a datagram of that call, or among the joined pieces that were received for the
/// stream up to that call. It has the ID of a request that was made for the grant: for a permission of this
/// IP address, for a channel of this number and this peer, for an allocation, or to refresh one of its
/// family, for more than 0 s, to bind the connection from this local address to this peer. That request was outstanding
/// just before the message was processed, and was not just after it. The expiry of the grant is set by this
/// message: 300 s after its time for a permission, 600 s for a channel (RFC 8656, sections 9 and 12), for
/// an allocation the first LIFETIME that is seen, and at least 600 s in reply to a REFRESH; or an accepted
/// `delete`, after the message that granted the allocation, ended it at the time of that call. No later
/// call removed the grant or gave it another expiry.
///
/// If the request was made for an allocation, it is by its bytes a signed ALLOCATE, and never the first
/// one, which is not signed and whose response is the challenge (RFC 8489, section 9.2.3): it is signed
/// with the client's own credentials, under the realm and the algorithm under which the reply is signed. It
/// requests the families of which the client still requested an address when the reply was received, and
/// the address that is granted is of one of these (RFC 8656, sections 7.1 and 7.3). Such a success is among the
/// messages for each allocation, whatever refreshed it since: the relayed address that the allocation has stands
/// in it.
///
/// The request was the client's own: an earlier call made it, or an earlier input of the same call, as one
/// for the grant, or for a channel whose peer has the IP address of a permission.
pub fn grants_have_replies()
    ensures { HaveReplies IsActiveGrant }
{}
