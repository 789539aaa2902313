//! What the server answers, and what expires as time passes.

use crate::grants::plain::{Kind, Plain, address, at, family, id};
use crate::grants::random::Draw;
use std::alloc::AllocError;
use turn_client_grants::{GrantLedger, family_of};
use turn_types::AddressFamily;

/// Whether the server's answer is a success: about seven of ten are.
fn is_granted(draw: &Draw) -> bool {
    draw.m % 10 < 7
}

/// An allocation, of a family that has none.
pub(crate) fn allocation(
    ledger: &mut GrantLedger,
    plain: &mut Plain,
    draw: &Draw,
) -> Result<(), AllocError> {
    let relayed = address(draw.n % 8);
    let lifetime = u32::from(draw.m).saturating_mul(10);
    ledger.reserve(1, 0, 3, 0)?;
    if ledger.table().find_allocation(family_of(relayed)).is_some() {
        return Ok(());
    }
    let families = [AddressFamily::IPV4, AddressFamily::IPV6];
    ledger.allocated(lifetime, &[relayed], &families, at(draw.now));
    plain.allocated(draw.n % 8, lifetime, draw.now)
}

/// No allocation is requested any more.
pub(crate) fn no_allocation(ledger: &mut GrantLedger, plain: &mut Plain) -> Result<(), AllocError> {
    ledger.unlist_allocates();
    Ok(plain.unlist(Kind::Allocate, 0))
}

pub(crate) fn permission(
    ledger: &mut GrantLedger,
    plain: &mut Plain,
    draw: &Draw,
) -> Result<(), AllocError> {
    let ip = address(draw.n % 8).ip();
    ledger.reserve(0, 0, 1, 0)?;
    ledger.permission_answered(ip, is_granted(draw), at(draw.now));
    plain.permission_answered(draw.n % 8, is_granted(draw), draw.now)
}

pub(crate) fn channel(
    ledger: &mut GrantLedger,
    plain: &mut Plain,
    draw: &Draw,
) -> Result<(), AllocError> {
    let number = 0x4000u16 | u16::from(draw.n % 8);
    ledger.reserve(0, 0, 3, 0)?;
    ledger.channel_answered(number, id(draw.m), is_granted(draw), at(draw.now));
    plain.channel_answered(number, draw.m, is_granted(draw), draw.now)
}

pub(crate) fn connect(
    ledger: &mut GrantLedger,
    plain: &mut Plain,
    draw: &Draw,
) -> Result<(), AllocError> {
    ledger.reserve(1, 0, 2, 0)?;
    let number = if is_granted(draw) && plain.has_few_offers() {
        Some(u32::from(draw.m % 3))
    } else {
        None
    };
    ledger.connect_answered(address(draw.n % 8), &number);
    plain.connect_answered(draw.n % 8, number)
}

/// A REFRESH of an allocation succeeded.
pub(crate) fn refresh(
    ledger: &mut GrantLedger,
    plain: &mut Plain,
    draw: &Draw,
) -> Result<(), AllocError> {
    ledger.prolong(family(draw.n % 8), 600, at(draw.now));
    Ok(plain.prolonged(draw.n % 8, 600, draw.now))
}

/// A call found that the expiry of an allocation has passed.
pub(crate) fn expired(
    ledger: &mut GrantLedger,
    plain: &mut Plain,
    draw: &Draw,
) -> Result<(), AllocError> {
    if draw.m % 16 == 0 {
        ledger.expire(family(draw.n % 8));
        plain.expired(draw.n % 8);
    }
    Ok(())
}

/// The server deleted all allocations.
pub(crate) fn delete_answered(
    ledger: &mut GrantLedger,
    plain: &mut Plain,
    draw: &Draw,
) -> Result<(), AllocError> {
    if draw.m % 32 != 0 {
        return Ok(());
    }
    ledger.clear();
    plain.clear()
}

/// Whether the requests are timed from when they are sent: those of every other change are.
fn is_timed_from_send(draw: &Draw) -> bool {
    draw.n % 2 == 0
}

/// What expires by now, without a request that timed out.
pub(crate) fn expire_grants(
    ledger: &mut GrantLedger,
    plain: &mut Plain,
    draw: &Draw,
) -> Result<(), AllocError> {
    let timed_from_send = is_timed_from_send(draw);
    ledger.expire_grants(timed_from_send, None, at(draw.now));
    plain.expire_grants(timed_from_send, None, draw.now)
}

/// What expires by now, and what a request that timed out was made for.
pub(crate) fn expire_given_up(
    ledger: &mut GrantLedger,
    plain: &mut Plain,
    draw: &Draw,
) -> Result<(), AllocError> {
    let timed_from_send = is_timed_from_send(draw);
    ledger.expire_grants(timed_from_send, Some(id(draw.m)), at(draw.now));
    plain.expire_grants(timed_from_send, Some(draw.m), draw.now)
}
