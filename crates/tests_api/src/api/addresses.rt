//! The iterators over addresses.

ghost use Rattle.std.specs.Prelude.{◌≡◌, IfOk};
ghost use Rattle.turn_client_api.specs.Addresses.{relayed_in_use, permitted_in_use};

use crate::api::{relayed, relayed_ipv6};
use crate::fixture::{peer, same};
use std::alloc::{AllocError, Global};
use std::net::{IpAddr, SocketAddr};
use std::process::Abort;
use turn_client_api::{
    Grant, Lease, PermissionAddressesIter, Progress, Relay, RelayedAddressesIter,
};
use turn_stun::instant::Instant;
use turn_types::{AddressFamily, TransportType};

/// All relayed addresses, through the iterator alone.
fn all_relayed(
    alloc: Global,
    transport: TransportType,
    grants: &[Grant],
) -> Result<Vec<(TransportType, SocketAddr)>, AllocError>
    ensures { IfOk result (λ all. all.items ≡ relayed_in_use transport grants.now) }
{
    RelayedAddressesIter::new(transport, grants).collect(alloc)
}

/// The same for the addresses with a permission.
fn all_permitted(
    alloc: Global,
    family: AddressFamily,
    grants: &[Grant],
) -> Result<Vec<IpAddr>, AllocError>
    ensures { IfOk result (λ all. all.items ≡ permitted_in_use family grants.now) }
{
    PermissionAddressesIter::new(family, grants).collect(alloc)
}

/// An allocation of ten minutes with this relayed address.
fn allocation(relayed: SocketAddr, is_expired: bool) -> Grant {
    Grant::Allocation(Relay {
        relayed,
        first_lifetime: 600_000_000_000,
        expiry: Instant::from_nanos(600_000_000_000),
        is_expired,
    })
}

/// An active permission for this address.
fn permission(addr: SocketAddr) -> Grant {
    Grant::Permission(
        addr.ip(),
        Progress::Active(Lease {
            expiry: Instant::from_nanos(300_000_000_000),
            is_kept: true,
        }),
    )
}

fn over_ipv4() -> Grant {
    allocation(relayed(), false)
}

fn over_ipv6() -> Grant {
    allocation(relayed_ipv6(), false)
}

fn expired() -> Grant {
    allocation(peer(), true)
}

/// A pending permission.
fn asked() -> Grant {
    Grant::Permission(peer().ip(), Progress::Pending(true))
}

/// The relayed addresses of these grants are those of both allocations, and no others.
fn both_are_listed(rt: &impl Abort, alloc: Global, grants: &[Grant]) {
    let all = all_relayed(alloc, TransportType::Udp, grants).expect(rt, "memory");
    let both = [
        (TransportType::Udp, relayed()),
        (TransportType::Udp, relayed_ipv6()),
    ];
    same(rt, all.as_slice(), both.as_slice());
}

#[test]
fn expired_allocations_are_passed_over(rt: HostRuntime) {
    both_are_listed(
        &rt,
        rt.alloc(),
        &[over_ipv4(), over_ipv6(), expired(), expired()],
    );
    both_are_listed(
        &rt,
        rt.alloc(),
        &[expired(), over_ipv4(), asked(), over_ipv6()],
    );
    both_are_listed(
        &rt,
        rt.alloc(),
        &[expired(), expired(), over_ipv4(), over_ipv6()],
    );
    both_are_listed(
        &rt,
        rt.alloc(),
        &[over_ipv4(), permission(peer()), expired(), over_ipv6()],
    );
}

#[test]
fn an_iterator_stays_at_its_end(rt: HostRuntime) {
    let mut none = RelayedAddressesIter::new(TransportType::Tcp, &[]);
    same(&rt, none.next(), None);
    same(&rt, none.next(), None);
}

/// The addresses of this family with an active permission among the grants are these.
fn are_permitted(
    rt: &impl Abort,
    alloc: Global,
    family: AddressFamily,
    grants: &[Grant],
    want: &[IpAddr],
) {
    let all = all_permitted(alloc, family, grants).expect(rt, "memory");
    same(rt, all.as_slice(), want);
}

#[test]
fn permissions_are_listed_in_order(rt: HostRuntime) {
    let grants = [
        permission(peer()),
        permission(relayed_ipv6()),
        allocation(peer(), false),
        Grant::Channel(0x4000, peer(), Progress::Pending(true)),
        permission(relayed()),
    ];
    let ipv4 = [peer().ip(), relayed().ip()];
    are_permitted(&rt, rt.alloc(), AddressFamily::IPV4, &grants, &ipv4);
    let ipv6 = [relayed_ipv6().ip()];
    are_permitted(&rt, rt.alloc(), AddressFamily::IPV6, &grants, &ipv6);
    let mut none = PermissionAddressesIter::new(AddressFamily::IPV4, &[]);
    same(&rt, none.next(), None);
    same(&rt, none.next(), None);
}

#[test]
fn pending_permissions_are_passed_over(rt: HostRuntime) {
    let grants = [asked(), permission(relayed())];
    let ipv4 = [relayed().ip()];
    are_permitted(&rt, rt.alloc(), AddressFamily::IPV4, &grants, &ipv4);
}
