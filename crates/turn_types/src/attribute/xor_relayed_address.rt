//! XOR-RELAYED-ADDRESS (RFC 8656, section 18.5).

ghost use Rattle.std.specs.Prelude.{◌≡◌, ℕ, ◌^◌, ◌<◌, ◌∷◌, drop, Some, IfSome};
ghost use Rattle.turn_stun.specs.XorAddress.{plain, xor_addr, xor_value};

use crate::address::plain;
use std::alloc::AllocError;
use std::marker::Model;
use std::net::SocketAddr;
use turn_stun::attribute::AttributeType;
use turn_stun::attribute::typed::{AttributeFromRaw, AttributeWrite};
use turn_stun::attribute::xor_address::XorSocketAddr;
use turn_stun::transaction::TransactionId;

/// The relayed address that a server has allocated to a client, to which peers send (RFC 8656, section
/// 18.5). Contracts see it as the address.
#[derive(Clone, Copy, Debug, PartialEq, Eq)]
pub struct XorRelayedAddress {
    addr: XorSocketAddr,
}

impl Model for XorRelayedAddress {
    ghost use Rattle.std.specs.declared.net.socket_addr.SocketAddr.{SocketAddr};

    ghost Value = { SocketAddr };

    ghost view = { λ xor. xor.addr };

    ghost inverse = { λ addr. record { addr = addr } };
}

impl XorRelayedAddress {
    /// The type of the attribute.
    pub const TYPE: AttributeType = AttributeType { value: 0x0016 };

    /// The attribute with this address, except the flow information and the scope of an IPv6 address,
    /// which are not sent.
    pub fn new(addr: SocketAddr) -> XorRelayedAddress
        ensures addr { result ≡ plain addr }
        ensures value { (id : ℕ) → xor_value result id ≡ xor_value addr id }
        ensures again { (id : ℕ) → id < 2 ^ 96 → xor_addr (xor_value result id) id ≡ Some result }
    {
        XorRelayedAddress {
            addr: XorSocketAddr::new(plain(addr)),
        }
    }

    /// The address.
    pub fn addr(&self) -> SocketAddr
        ensures { result ≡ self.now }
    {
        self.addr.addr()
    }
}

impl<'a> AttributeFromRaw<'a> for XorRelayedAddress {
    ghost kind = { 0x0016 };

    ghost decodes = { λ value id found. found ≡ xor_addr value id };

    fn attribute_type() -> AttributeType
        ensures { result.value ≡ 0x0016 }
    {
        XorRelayedAddress::TYPE
    }

    fn from_value(value: &'a [u8], id: TransactionId) -> Option<XorRelayedAddress>
        ensures found { result ≡ xor_addr value.now id }
        // It is written again unchanged, except the unread byte.
        ensures again { IfSome result (λ addr. xor_value addr id ≡ 0 ∷ drop 1 value.now) }
    {
        let addr = XorSocketAddr::decode(value, id)?;
        Some(XorRelayedAddress { addr })
    }
}

impl AttributeWrite for XorRelayedAddress {
    ghost written_kind = { λ _. 0x0016 };

    ghost encoded = { xor_value };

    fn get_type(&self) -> AttributeType {
        XorRelayedAddress::TYPE
    }

    fn value_len(&self) -> usize {
        self.addr.value_len()
    }

    fn write_value(&self, id: TransactionId, out: &mut Vec<u8>) -> Result<(), AllocError> {
        self.addr.append(id, out)
    }
}
