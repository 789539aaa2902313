//! Which addresses the server allocated (RFC 8656, section 7.3).

ghost use Rattle.std.specs.Prelude.{◌≡◌, ◌&&◌, not, List, IfOk, OnOk};
ghost use Rattle.std.specs.List.{list_any};
ghost use Rattle.turn_client_api.specs.Effect.{relayed_in, taken_addresses};
ghost use Rattle.turn_client_api.specs.Grants.{is_of_family};
ghost use Rattle.turn_client_core.specs.Allocated.{IsRead, missing};

use std::alloc::{AllocError, Global};
use std::net::SocketAddr;
use turn_client_grants::{has_address, is_of_family};
use turn_stun::attribute::typed::AttributeFromRaw;
use turn_stun::message::Message;
use turn_types::AddressFamily;
use turn_types::attribute::XorRelayedAddress;

/// The relayed addresses that a success response allocates to a client that requests these families:
/// the first of each family, up to the first malformed address.
///
/// # Errors
///
/// `AllocError` if memory allocation for the list fails.
pub(crate) fn taken_addresses(
    message: &Message,
    families: &[AddressFamily],
    alloc: Global,
) -> Result<Vec<SocketAddr>, AllocError>
    ensures { IfOk result (λ taken. taken.items ≡ taken_addresses families.now (relayed_in message.now)) }
{
    let mut taken = Vec::new(alloc);
    for (_, raw) in message.iter_attributes() {
        if raw.attribute_type == XorRelayedAddress::TYPE {
            match XorRelayedAddress::from_value(raw.value, message.transaction_id()) {
                Some(relayed) => take(&mut taken, families, relayed.addr())?,
                None => return Ok(taken),
            }
        }
    }
    Ok(taken)
}

/// Adds the address if it is the first of a requested family.
///
/// # Errors
///
/// `AllocError` if memory allocation for it fails. Nothing is added then.
fn take(
    taken: &mut Vec<SocketAddr>,
    families: &[AddressFamily],
    address: SocketAddr,
) -> Result<(), AllocError>
    ensures { OnOk result (IsRead address families.now taken.old.items taken.new.items) }
{
    if is_wanted(taken, families, address) {
        taken.push(address)?;
    }
    Ok(())
}

/// Whether the address is of a requested family of which none was added yet.
fn is_wanted(taken: &[SocketAddr], families: &[AddressFamily], address: SocketAddr) -> bool
    ensures { result ≡ list_any (λ family. not (list_any (is_of_family family) taken.now) && is_of_family family address) families.now }
{
    families.iter().any(|family| !has_address(taken, *family) && is_of_family(*family, address))
}
