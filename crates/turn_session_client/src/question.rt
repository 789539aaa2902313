//! The question whether the server still knows the allocation: a request for a permission that lets nobody in.

ghost use Rattle.std.specs.Prelude.{◌≡◌, ◌≤◌, ◌^◌};
ghost use Rattle.turn_session_client.specs.Doubting.{AsksClient, asked_by, question_ip};

use std::net::{IpAddr, Ipv4Addr, Ipv6Addr};
use turn_client_api::{CreatePermissionError, TurnClientApi};
use turn_session_life::doubts::Asking;
use turn_stun::instant::Instant;
use turn_types::TransportType;

/// The address with this number that no host has (RFC 5737; RFC 3849).
pub(crate) fn question_ip(is_ipv6: bool, number: u8) -> IpAddr
    ensures { result ≡ question_ip is_ipv6 number }
{
    if is_ipv6 {
        let last = u16::from(number);
        return IpAddr::V6(Ipv6Addr::new(0x2001, 0xdb8, 0, 0, 0, 0, 0, last));
    }
    IpAddr::V4(Ipv4Addr::new(192, 0, 2, number))
}

/// Requests the permission, which is not kept. Without memory there is no answer, and the client is unchanged.
pub(crate) fn ask<C: TurnClientApi>(
    client: &mut C,
    relays: TransportType,
    ip: IpAddr,
    now: Instant,
) -> Option<Asking>
    requires now_in_range { now ≤ 2 ^ 62 }
    ensures { AsksClient result (C.state client.old) (C.state client.new) (asked_by relays ip now (C.state client.old)) }
{
    match client.create_permission(relays, ip, now) {
        Ok(()) => {
            let _known = client.set_permission_kept(relays, ip, false);
            Some(Asking::Asked)
        }
        Err(CreatePermissionError::AlreadyExists) => Some(Asking::Taken),
        Err(CreatePermissionError::NoAllocation) => Some(Asking::NoAllocation),
        Err(CreatePermissionError::OutOfMemory) => None,
    }
}
