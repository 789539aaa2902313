//! What a packet says, without judging it.

ghost use Rattle.std.specs.Prelude.{◌≡◌, ◌≤◌, length, IfSome};
ghost use Rattle.turn_c_calls.specs.Hints.{AreOf, SaysFirst, SaysOver, SaysPlace, address_or, attribute_in, class_code, hints_of};
ghost use Rattle.turn_c_calls.specs.Hints.{hints_of_kind, hints_of_message, place_len, place_start};

use crate::address::{Address, c_transport, no_address};
use crate::code::{
    BAD_CALL, CHANNEL_DATA, ERROR, INDICATION, MESSAGE, NO, NO_FRAME, NOTHING, REQUEST, SUCCESS,
    YES,
};
use std::net::SocketAddr;
use std::ops::Range;
use turn_hints::{
    FirstFrame, alternate_server_of, code_of, first_frame, len_of, mapped_address_of, place_of,
    reason_place_of,
};
use turn_stun::attribute::AttributeType;
use turn_stun::message::Message;
use turn_stun::message::header::MessageClass;
use turn_stun::transport::TransportType;

/// What the first frame of bytes says. Its signature was not checked, so anyone may have sent it.
#[derive(Clone, Copy, Debug, PartialEq, Eq)]
#[repr(C)]
pub struct Hints {
    /// The bytes of the frame, over TCP with its padding.
    pub len: u64,
    /// What the bytes begin with.
    pub kind: u32,
    /// The method of a message (RFC 8489, section 5).
    pub method: u16,
    /// The class of a message.
    pub message_class: u16,
    /// The transaction ID of a message.
    pub id: [u8; 12],
    /// The channel number of ChannelData.
    pub channel: u16,
    /// The code of the first ERROR-CODE, or 0.
    pub code: u16,
    /// Where its reason starts in the bytes, or 0.
    pub reason_at: u32,
    /// How many bytes the reason has.
    pub reason_len: u32,
    /// Where the first REALM starts in the bytes, or 0.
    pub realm_at: u32,
    /// How many bytes the realm has.
    pub realm_len: u32,
    /// The first XOR-MAPPED-ADDRESS, or no address.
    pub mapped: Address,
    /// The first ALTERNATE-SERVER, or no address.
    pub alternate: Address,
    /// 0.
    pub reserved: [u8; 8],
}

/// Reads the first frame of bytes that came over this transport, and returns the kind of what it is.
pub fn read_message(transport: u32, bytes: &[u8], hints: &mut Hints) -> u32
    ensures says { SaysFirst transport bytes.now hints.new }
    ensures kind { result ≡ hints.new.kind }
{
    *hints = hints_over(c_transport(transport), bytes);
    hints.kind
}

/// What the first frame of these bytes says, if there is such a transport.
fn hints_over(transport: Option<TransportType>, bytes: &[u8]) -> Hints
    ensures { SaysOver transport bytes.now result }
{
    match transport {
        None => hints_of_kind(BAD_CALL),
        Some(transport) => hints_of(first_frame(transport, bytes)),
    }
}

/// Reads where the value of the first attribute of this type lies, of the message that the bytes are or begin with.
pub fn read_attribute(
    bytes: &[u8],
    attribute_type: u16,
    start: &mut usize,
    value_len: &mut usize,
) -> u32
    ensures { SaysPlace attribute_type bytes.now start.new value_len.new result }
{
    set_place(
        first_frame(TransportType::Tcp, bytes),
        attribute_type,
        start,
        value_len,
    )
}

/// Sets the place of the first attribute of this type and its length, or both to 0 if there is none.
fn set_place(
    first: FirstFrame<'_>,
    attribute_type: u16,
    start: &mut usize,
    value_len: &mut usize,
) -> u32
    ensures { AreOf (attribute_in attribute_type first.entry) start.new value_len.new result }
{
    match attribute_in(first, attribute_type) {
        Some(place) => {
            *start = place.start;
            *value_len = place.end - place.start;
            YES
        }
        None => {
            *start = 0;
            *value_len = 0;
            NO
        }
    }
}

/// The place of the first attribute of this type, of a message alone.
fn attribute_in(first: FirstFrame<'_>, attribute_type: u16) -> Option<Range<usize>>
    ensures place { result ≡ attribute_in attribute_type first.entry }
    ensures ordered { IfSome result (λ place. place.start ≤ place.end) }
{
    match first {
        FirstFrame::Message(message) => place_of(
            &message,
            AttributeType {
                value: attribute_type,
            },
        ),
        _ => None,
    }
}

/// What a frame says.
fn hints_of(first: FirstFrame<'_>) -> Hints
    ensures { result ≡ hints_of first.entry }
{
    match first {
        FirstFrame::Message(message) => hints_of_message(&message),
        FirstFrame::ChannelData(channel, len) => {
            let mut hints = hints_of_kind(CHANNEL_DATA);
            hints.len = len as u64;
            hints.channel = channel.id();
            hints
        }
        FirstFrame::Part => hints_of_kind(NOTHING),
        FirstFrame::NoFrame => hints_of_kind(NO_FRAME),
    }
}

/// What is of this kind, and says nothing else.
fn hints_of_kind(kind: u32) -> Hints
    ensures { result ≡ hints_of_kind kind }
{
    Hints {
        len: 0,
        kind,
        method: 0,
        message_class: 0,
        id: [0; 12],
        channel: 0,
        code: 0,
        reason_at: 0,
        reason_len: 0,
        realm_at: 0,
        realm_len: 0,
        mapped: no_address(),
        alternate: no_address(),
        reserved: [0; 8],
    }
}

/// What a message says.
fn hints_of_message(message: &Message<'_>) -> Hints
    ensures { result ≡ hints_of_message message.now }
{
    let message_type = message.message_type();
    let (reason_at, reason_len) = placed(message, reason_place_of(message));
    let (realm_at, realm_len) = placed(message, place_of(message, AttributeType::REALM));
    Hints {
        len: len_of(message) as u64,
        kind: MESSAGE,
        method: message_type.method.value,
        message_class: class_code(message_type.class),
        id: message.transaction_id().to_bytes(),
        channel: 0,
        code: code_of(message).unwrap_or(0),
        reason_at,
        reason_len,
        realm_at,
        realm_len,
        mapped: address_or(mapped_address_of(message)),
        alternate: address_or(alternate_server_of(message)),
        reserved: [0; 8],
    }
}

/// A place in the message, by its start and its length, or 0 with length 0 if there is none.
fn placed(message: &Message<'_>, place: Option<Range<usize>>) -> (u32, u32)
    requires { IfSome place (λ place. (place.start ≤ place.end) × (place.end ≤ length message.now)) }
    ensures { result ≡ (place_start place, place_len place) }
{
    let _short = len_of(message);
    match place {
        Some(place) => (place.start as u32, (place.end - place.start) as u32),
        None => (0, 0),
    }
}

/// The number of a class.
fn class_code(class: MessageClass) -> u16
    ensures { result ≡ class_code class }
{
    match class {
        MessageClass::Request => REQUEST,
        MessageClass::Indication => INDICATION,
        MessageClass::Success => SUCCESS,
        MessageClass::Error => ERROR,
    }
}

/// An address, or no address.
fn address_or(addr: Option<SocketAddr>) -> Address
    ensures { result ≡ address_or addr }
{
    let mut address = no_address();
    if let Some(addr) = addr {
        address.set(&addr);
    }
    address
}
