//! Offers of data connections, and data connections.

use crate::grants::is_asked;
use crate::grants::plain::{Plain, Reason, address, at, id};
use crate::grants::random::Draw;
use std::alloc::AllocError;
use turn_client_api::Origin;
use turn_client_grants::GrantLedger;

/// The server offers a data connection to a peer that connected.
pub(crate) fn offered(
    ledger: &mut GrantLedger,
    plain: &mut Plain,
    draw: &Draw,
) -> Result<(), AllocError> {
    ledger.reserve(1, 0, 0, 0)?;
    if !plain.has_few_offers() {
        return Ok(());
    }
    let number = u32::from(draw.m % 3);
    let peer = draw.n % 8;
    if draw.m % 2 == 0 {
        ledger.offer(number, address(peer), Origin::ServerIndication);
        return plain.offered(number, peer, Reason::Indication);
    }
    ledger.offer(number, address(peer), Origin::ServerRequest(id(draw.m)));
    plain.offered(number, peer, Reason::Request(draw.m % 16))
}

/// Reports the next offer to the caller.
pub(crate) fn reported(ledger: &mut GrantLedger, plain: &mut Plain) -> Result<(), AllocError> {
    let next = ledger.table().next_offer();
    if let Some(offer) = next {
        ledger.offer_reported(&offer);
    }
    Ok(plain.reported())
}

/// The caller could not open the connection of an offer.
pub(crate) fn taken(
    ledger: &mut GrantLedger,
    plain: &mut Plain,
    draw: &Draw,
) -> Result<(), AllocError> {
    let number = u32::from(draw.m % 3);
    ledger.offer_taken(number, address(draw.n % 8));
    plain.offer_taken(number, draw.n % 8)
}

/// The caller opened the connection of an offer.
pub(crate) fn opened(
    ledger: &mut GrantLedger,
    plain: &mut Plain,
    draw: &Draw,
) -> Result<(), AllocError> {
    let request = id(draw.m);
    let number = u32::from(draw.m % 3);
    let peer = address(draw.n % 8);
    let local = address(draw.m % 8);
    ledger.reserve(1, 2, 0, 1)?;
    if ledger.table().connection_at(local).is_some() {
        return Ok(());
    }
    if is_asked(ledger, request) {
        return Ok(());
    }
    ledger.opened(number, peer, local, request, at(draw.now));
    plain.opened(number, draw.n % 8, draw.m % 8, draw.m, draw.now)
}

/// The server bound a connection.
pub(crate) fn bound(
    ledger: &mut GrantLedger,
    plain: &mut Plain,
    draw: &Draw,
) -> Result<(), AllocError> {
    ledger.reserve(0, 0, 1, 0)?;
    let Some(connection) = ledger.table().connection_at(address(draw.n % 8)) else {
        return Ok(());
    };
    ledger.bound(&connection);
    plain.bound(draw.n % 8)
}

/// The server did not bind a connection.
pub(crate) fn not_bound(
    ledger: &mut GrantLedger,
    plain: &mut Plain,
    draw: &Draw,
) -> Result<(), AllocError> {
    let Some(connection) = ledger.table().connection_at(address(draw.n % 8)) else {
        return Ok(());
    };
    ledger.not_bound(&connection);
    plain.not_bound(draw.n % 8)
}

/// The server challenged the request to bind a connection.
pub(crate) fn bound_again(
    ledger: &mut GrantLedger,
    plain: &mut Plain,
    draw: &Draw,
) -> Result<(), AllocError> {
    let local = address(draw.n % 8);
    let fresh = id(draw.m);
    ledger.reserve(0, 2, 0, 0)?;
    let Some(request) = plain.binds_by(draw.n % 8) else {
        return Ok(());
    };
    let Some(purpose) = ledger.table().bind_purpose(id(request), local) else {
        return Ok(());
    };
    if is_asked(ledger, fresh) {
        return Ok(());
    }
    ledger.bind_again(local, fresh, purpose, at(draw.now));
    plain.bound_again(draw.n % 8, draw.m, purpose, draw.now)
}

/// A connection is removed, if it exists.
pub(crate) fn gone(
    ledger: &mut GrantLedger,
    plain: &mut Plain,
    draw: &Draw,
) -> Result<(), AllocError> {
    ledger.connection_gone(address(draw.n % 8));
    plain.gone(draw.n % 8)
}
