//! What a client requests, and what it deletes.

use crate::grants::is_asked;
use crate::grants::plain::{Kind, Plain, Row, Stage, address, at, family, id, number_of};
use crate::grants::random::Draw;
use std::alloc::AllocError;
use turn_client_api::{Grant, Progress, Purpose};
use turn_client_grants::{GrantLedger, Purposes};

/// A permission, if there is none.
pub(crate) fn permission(
    ledger: &mut GrantLedger,
    plain: &mut Plain,
    draw: &Draw,
) -> Result<(), AllocError> {
    let ip = address(draw.n % 8).ip();
    let request = id(draw.m);
    ledger.reserve(1, 2, 0, 0)?;
    if ledger.table().permission_state(ip).is_some() {
        return Ok(());
    }
    if is_asked(ledger, request) {
        return Ok(());
    }
    let purpose = Purpose::ForPermission(ip);
    ledger.ask(
        request,
        &[Grant::Permission(ip, Progress::Pending(true))],
        &Purposes::one(purpose),
    );
    plain.asks(Kind::Permission, u32::from(draw.n % 8), draw, purpose)
}

/// A channel, if there is none.
pub(crate) fn channel(
    ledger: &mut GrantLedger,
    plain: &mut Plain,
    draw: &Draw,
) -> Result<(), AllocError> {
    let peer = address(draw.n % 8);
    let request = id(draw.m);
    ledger.reserve(1, 2, 0, 0)?;
    if ledger.table().has_channel(peer) {
        return Ok(());
    }
    if is_asked(ledger, request) {
        return Ok(());
    }
    let Some(number) = ledger.table().free_number() else {
        return Ok(());
    };
    let purpose = Purpose::ForChannel(number, peer);
    ledger.ask(
        request,
        &[Grant::Channel(number, peer, Progress::Pending(true))],
        &Purposes::one(purpose),
    );
    plain.asks(Kind::Channel, u32::from(number), draw, purpose)
}

/// A channel with its permission, if there is neither.
pub(crate) fn channel_with_permission(
    ledger: &mut GrantLedger,
    plain: &mut Plain,
    draw: &Draw,
) -> Result<(), AllocError> {
    let peer = address(draw.n % 8);
    let ip = peer.ip();
    let request = id(draw.m);
    ledger.reserve(2, 2, 0, 0)?;
    if ledger.table().has_channel(peer) {
        return Ok(());
    }
    if ledger.table().permission_state(ip).is_some() {
        return Ok(());
    }
    if is_asked(ledger, request) {
        return Ok(());
    }
    let Some(number) = ledger.table().free_number() else {
        return Ok(());
    };
    let purpose = Purpose::ForChannel(number, peer);
    let other = Purpose::ForPermission(ip);
    ledger.ask(
        request,
        &[
            Grant::Channel(number, peer, Progress::Pending(true)),
            Grant::Permission(ip, Progress::Pending(true)),
        ],
        &Purposes::two(purpose, other),
    );
    plain.asks(Kind::Channel, u32::from(number), draw, purpose)?;
    plain.asks(Kind::Permission, u32::from(draw.n % 8), draw, other)
}

/// A data connection, if none is requested.
pub(crate) fn connect(
    ledger: &mut GrantLedger,
    plain: &mut Plain,
    draw: &Draw,
) -> Result<(), AllocError> {
    let peer = address(draw.n % 8);
    let request = id(draw.m);
    ledger.reserve(1, 2, 0, 0)?;
    if ledger.table().is_connecting(peer) {
        return Ok(());
    }
    if is_asked(ledger, request) {
        return Ok(());
    }
    let purpose = Purpose::ForConnect(peer);
    ledger.ask(request, &[Grant::Connect(peer)], &Purposes::one(purpose));
    plain.asks(Kind::Connect, u32::from(draw.n % 8), draw, purpose)
}

/// Allocations.
pub(crate) fn allocation(
    ledger: &mut GrantLedger,
    plain: &mut Plain,
    draw: &Draw,
) -> Result<(), AllocError> {
    asks_only(
        ledger,
        plain,
        draw,
        &Row::new(Kind::Allocate, 0, 0),
        Purpose::ForAllocation,
    )
}

/// A request for this purpose, which adds no grant.
fn asks_only(
    ledger: &mut GrantLedger,
    plain: &mut Plain,
    draw: &Draw,
    row: &Row,
    purpose: Purpose,
) -> Result<(), AllocError> {
    let request = id(draw.m);
    ledger.reserve(0, 2, 0, 0)?;
    if is_asked(ledger, request) {
        return Ok(());
    }
    ledger.ask(request, &[], &Purposes::one(purpose));
    plain.list(draw.m, row, purpose)
}

/// A refresh of what is active already.
pub(crate) fn refresh(
    ledger: &mut GrantLedger,
    plain: &mut Plain,
    draw: &Draw,
) -> Result<(), AllocError> {
    let Some(row) = plain.row_of(draw.n) else {
        return Ok(());
    };
    let peer = address(row.peer);
    let purpose = match row.kind {
        Kind::Allocation => Purpose::ForRefresh(family(row.peer), 1_800),
        Kind::Permission if row.stage == Stage::Active => Purpose::ForPermission(peer.ip()),
        Kind::Channel if row.stage == Stage::Active => Purpose::ForChannel(
            number_of(row.key),
            peer,
        ),
        _ => return Ok(()),
    };
    asks_only(ledger, plain, draw, &row, purpose)
}

/// The same request again, with another ID.
pub(crate) fn again(
    ledger: &mut GrantLedger,
    plain: &mut Plain,
    draw: &Draw,
) -> Result<(), AllocError> {
    ledger.reserve(0, 2, 0, 0)?;
    let fresh = id(draw.n);
    if is_asked(ledger, fresh) {
        return Ok(());
    }
    ledger.ask_again(id(draw.m), fresh);
    plain.asked_again(draw.m, draw.n)
}

/// All allocations are deleted.
pub(crate) fn gives_back(
    ledger: &mut GrantLedger,
    plain: &mut Plain,
    draw: &Draw,
) -> Result<(), AllocError> {
    let request = id(draw.m);
    ledger.reserve(0, 2, 0, 0)?;
    if draw.n % 16 != 0 || is_asked(ledger, request) {
        return Ok(());
    }
    ledger.queue_delete(request, at(draw.now));
    plain.delete_answered(draw.m, draw.now)
}
