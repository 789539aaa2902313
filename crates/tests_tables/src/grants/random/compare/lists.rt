//! All rows and queues, in their order.

use crate::fixture::{check, same};
use crate::grants::plain::{Plain, TRANSPORT, address, family, id, is_ipv6};
use std::alloc::{AllocError, Global};
use std::process::Abort;
use turn_client_api::Listing;
use turn_client_grants::GrantLedger;
use turn_stun::transport::TransportType;

/// Both have the same grants, listings, queued events and addresses to close, in the same order.
///
/// No call lends these lists, so the text of the ledger, which has each of them once, is compared.
pub(crate) fn are_same(
    rt: &impl Abort,
    ledger: &GrantLedger,
    plain: &Plain,
    alloc: Global,
) -> Result<(), AllocError> {
    same(rt, ledger.table().count(), plain.rows.len());
    same(rt, ledger.table().listing_count(), plain.asked.len());
    same(rt, ledger.has_event(), !plain.events.is_empty());
    let text = format!(in alloc; "{ledger:?}")?;
    let grants = plain.grants_text(alloc)?;
    check(rt, text.contains(grants.as_str()));
    let listed = format!(in alloc; "{:?}", plain.listings(alloc)?)?;
    check(rt, text.contains(listed.as_str()));
    let queues = format!(in alloc; "events: {:?}, closes: {:?} }}", plain.events, plain.closes)?;
    check(rt, text.ends_with(queues.as_str()));
    Ok(())
}

/// The iterators yield the same addresses in the same order.
pub(crate) fn have_same_addresses(rt: &impl Abort, ledger: &GrantLedger, plain: &Plain) {
    relayed(rt, ledger, plain);
    for n in 0..8u8 {
        permitted(rt, ledger, plain, n);
        next_permitted(rt, ledger, plain, n);
    }
    let mut none = ledger.permissions(TransportType::Udp, address(0));
    same(rt, none.next(), None);
}

fn relayed(rt: &impl Abort, ledger: &GrantLedger, plain: &Plain) {
    let mut found = ledger.relayed_addresses();
    for row in &plain.rows {
        if row.is_relay() {
            same(rt, found.next(), Some((TRANSPORT, address(row.peer))));
        }
    }
    same(rt, found.next(), None);
}

/// The permitted peers of the allocation with this relayed address, if there is one that is not expired.
fn permitted(rt: &impl Abort, ledger: &GrantLedger, plain: &Plain, n: u8) {
    let mut found = ledger.permissions(TRANSPORT, address(n));
    let mut all = ledger.table().permitted_addresses(family(n));
    let is_in_use = plain.has_relayed(n);
    for row in &plain.rows {
        if row.permits(is_ipv6(n)) {
            let ip = Some(address(row.peer).ip());
            same(rt, all.next(), ip);
            same(rt, found.next(), if is_in_use { ip } else { None });
        }
    }
    same(rt, all.next(), None);
    same(rt, found.next(), None);
}

/// From each position on, the next permission is that of the first row there or behind it that permits.
fn next_permitted(rt: &impl Abort, ledger: &GrantLedger, plain: &Plain, n: u8) {
    let is_in_use = plain.has_relayed(n);
    let mut behind = plain.rows.len();
    let mut next = None;
    same(
        rt,
        ledger.next_permission(TRANSPORT, address(n), behind),
        None,
    );
    for row in plain.rows.iter().rev() {
        if row.permits(is_ipv6(n)) && is_in_use {
            next = Some((address(row.peer).ip(), behind));
        }
        behind = behind.saturating_sub(1);
        same(
            rt,
            ledger.next_permission(TRANSPORT, address(n), behind),
            next,
        );
    }
    same(rt, behind, 0);
    same(
        rt,
        ledger.next_permission(TransportType::Udp, address(n), 0),
        None,
    );
}

impl Plain {
    /// The rows as the text of a list of grants.
    fn grants_text(&self, alloc: Global) -> Result<String, AllocError> {
        let mut text = format!(in alloc; "grants: [")?;
        let mut separator = "";
        for row in &self.rows {
            let one = format!(in alloc; "{separator}{:?}", row.grant())?;
            text.push_str(one.as_str())?;
            separator = ", ";
        }
        text.push_str("], listed: ")?;
        Ok(text)
    }

    /// What is listed.
    fn listings(&self, alloc: Global) -> Result<Vec<Listing>, AllocError> {
        let mut listings = Vec::new(alloc);
        for asked in &self.asked {
            listings.push(Listing {
                id: id(asked.id),
                purpose: asked.purpose,
            })?;
        }
        Ok(listings)
    }
}
