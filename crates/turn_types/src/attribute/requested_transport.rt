//! REQUESTED-TRANSPORT (RFC 8656, section 18.8, and RFC 6062, section 4.1).

ghost use Rattle.std.specs.Prelude.{◌≡◌, Some, IfSome};
ghost use Rattle.turn_types.specs.Values.{protocol_number, decoded_transport, transport_value, transport_with_number};

use crate::attribute::value::leading_byte;
use std::alloc::AllocError;
use std::marker::Model;
use turn_stun::attribute::AttributeType;
use turn_stun::attribute::typed::{AttributeFromRaw, AttributeWrite};
use turn_stun::transaction::TransactionId;
use turn_stun::transport::TransportType;

/// The transport between a server and the peers of an allocation (RFC 8656, section 18.8). Contracts see
/// it as this transport.
#[derive(Clone, Copy, Debug, PartialEq, Eq)]
pub struct RequestedTransport {
    transport: TransportType,
}

impl Model for RequestedTransport {
    ghost use Rattle.turn_stun.specs.declared.transport.TransportType.{TransportType};

    ghost Value = { TransportType };

    ghost view = { λ asked. asked.transport };

    ghost inverse = { λ transport. record { transport = transport } };
}

impl RequestedTransport {
    /// The type of the attribute.
    pub const TYPE: AttributeType = AttributeType { value: 0x0019 };

    /// The attribute that requests this transport.
    pub fn new(transport: TransportType) -> RequestedTransport
        ensures transport { result ≡ transport }
        ensures again { decoded_transport (transport_value result) ≡ Some transport }
    {
        RequestedTransport { transport }
    }

    /// The requested transport.
    pub fn transport(&self) -> TransportType
        ensures { result ≡ self.now }
    {
        self.transport
    }
}

impl<'a> AttributeFromRaw<'a> for RequestedTransport {
    ghost kind = { 0x0019 };

    ghost decodes = { λ value id found. found ≡ decoded_transport value };

    fn attribute_type() -> AttributeType
        ensures { result.value ≡ 0x0019 }
    {
        RequestedTransport::TYPE
    }

    fn from_value(value: &'a [u8], _id: TransactionId) -> Option<RequestedTransport>
        ensures found { result ≡ decoded_transport value.now }
        // It is written again unchanged.
        ensures again { IfSome result (λ transport. transport_value transport ≡ value.now) }
    {
        let transport = transport_with_number(leading_byte(value)?)?;
        Some(RequestedTransport { transport })
    }
}

impl AttributeWrite for RequestedTransport {
    ghost written_kind = { λ _. 0x0019 };

    ghost encoded = { λ transport id. transport_value transport };

    fn get_type(&self) -> AttributeType {
        RequestedTransport::TYPE
    }

    fn value_len(&self) -> usize {
        4
    }

    fn write_value(&self, _id: TransactionId, out: &mut Vec<u8>) -> Result<(), AllocError> {
        out.extend_from_slice(&[protocol_number(self.transport), 0, 0, 0])
    }
}

/// The IANA number of the protocol.
fn protocol_number(transport: TransportType) -> u8
    ensures { result ≡ protocol_number transport }
{
    match transport {
        TransportType::Udp => 17,
        TransportType::Tcp => 6,
    }
}

fn transport_with_number(number: u8) -> Option<TransportType>
    ensures { result ≡ transport_with_number number }
{
    match number {
        17 => Some(TransportType::Udp),
        6 => Some(TransportType::Tcp),
        _ => None,
    }
}
