//! The replies of the calls that only read.

ghost use Rattle.std.specs.Prelude.{◌≡◌, ◌<◌, length, IfOk, OnErr};
ghost use Rattle.turn_client_api.specs.Calls.{permissions_of, relayed_addresses_of};
ghost use Rattle.turn_client_calls.specs.Run.{step};

use crate::{Call, PermittedAddresses, RelayedAddresses, Reply};
use std::alloc::{AllocError, Global};
use std::net::{IpAddr, SocketAddr};
use turn_client_api::TurnClientApi;
use turn_stun::transport::TransportType;

/// The relayed addresses. Memory is allocated only if there is one.
pub(crate) fn relayed_addresses<C: TurnClientApi>(
    alloc: Global,
    client: &C,
) -> Result<Reply, AllocError>
    ensures ok { IfOk result (λ reply. (reply, C.state client.now) ≡ step (C.state client.now) Call.RelayedAddresses) }
    ensures wanted { OnErr result (0 < length (relayed_addresses_of (C.state client.now))) }
{
    let mut any = client.relayed_addresses();
    if let None = any.next() {
        return Ok(Reply::RelayedAddresses(RelayedAddresses::from(Vec::new(alloc))));
    }
    let addresses: Vec<(TransportType, SocketAddr)> = client.relayed_addresses().collect(alloc)?;
    Ok(Reply::RelayedAddresses(RelayedAddresses::from(addresses)))
}

/// The peer IP addresses with a permission in the allocation with this relayed address. Memory is allocated only if there is
/// one.
pub(crate) fn permissions<C: TurnClientApi>(
    alloc: Global,
    client: &C,
    transport: TransportType,
    relayed: SocketAddr,
) -> Result<Reply, AllocError>
    ensures ok { IfOk result (λ reply. (reply, C.state client.now) ≡ step (C.state client.now) (Call.Permissions transport relayed)) }
    ensures wanted { OnErr result (0 < length (permissions_of transport relayed (C.state client.now))) }
{
    let mut any = client.permissions(transport, relayed);
    if let None = any.next() {
        return Ok(Reply::Permissions(PermittedAddresses::from(Vec::new(alloc))));
    }
    let addresses = listed(alloc, client, transport, relayed)?;
    Ok(Reply::Permissions(PermittedAddresses::from(addresses)))
}

/// The same as a list.
fn listed<C: TurnClientApi>(
    alloc: Global,
    client: &C,
    transport: TransportType,
    relayed: SocketAddr,
) -> Result<Vec<IpAddr>, AllocError>
    ensures { IfOk result (λ addresses. addresses.items ≡ permissions_of transport relayed (C.state client.now)) }
{
    client.permissions(transport, relayed).collect(alloc)
}

/// Whether the peer IP address has a permission.
pub(crate) fn have_permission<C: TurnClientApi>(
    client: &C,
    transport: TransportType,
    to: IpAddr,
) -> Reply
    ensures { (result, C.state client.now) ≡ step (C.state client.now) (Call.HavePermission transport to) }
{
    Reply::HavePermission(client.have_permission(transport, to))
}
