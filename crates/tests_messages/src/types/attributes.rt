//! Attributes: each value that is well-formed, one byte short, one byte long, or of a wrong kind.

mod addresses;
mod numbers;
mod others;

use crate::fixture::same;
use crate::types::attributes::addresses::ipv4;
use crate::types::{first_id, second_id};
use std::alloc::Global;
use std::fmt::Debug;
use std::process::Abort;
use turn_stun::attribute::typed::{AttributeFromRaw, AttributeWrite};
use turn_stun::message::Message;
use turn_stun::message::header::{MessageClass, MessageType};
use turn_stun::message::write::MessageWriteVec;
use turn_stun::transaction::TransactionId;
use turn_types::attribute::{Data, Lifetime, XorPeerAddress};
use turn_types::message::{
    ALLOCATE, CHANNEL_BIND, CONNECT, CONNECTION_ATTEMPT, CONNECTION_BIND, CREATE_PERMISSION, DATA,
    REFRESH, SEND,
};

/// The value is decoded under this ID to this attribute.
fn reads<'a, A: AttributeFromRaw<'a> + PartialEq + Debug + Drop>(
    rt: &impl Abort,
    value: &'a [u8],
    id: TransactionId,
    want: A,
) {
    same(rt, A::from_value(value, id), Some(want));
}

/// Values of four bytes that are no number, or one byte short or long, are malformed.
fn refuses<'a, A: AttributeFromRaw<'a> + Drop>(rt: &impl Abort, values: &[&'a [u8]]) {
    for value in values {
        same(rt, A::from_value(*value, first_id()).is_none(), true);
    }
}

/// The attribute has this type, and is encoded as this value.
fn writes<A: AttributeWrite>(
    rt: &impl Abort,
    alloc: Global,
    attribute: &A,
    kind: u16,
    value: &[u8],
) {
    let mut out = Vec::new(alloc);
    attribute
        .write_value(second_id(), &mut out)
        .expect(rt, "memory");
    same(rt, out.as_slice(), value);
    same(
        rt,
        (attribute.get_type().value, attribute.value_len()),
        (kind, value.len()),
    );
}

const DATA_INDICATION: MessageType = MessageType {
    method: DATA,
    class: MessageClass::Indication,
};

fn data_indication(rt: &impl Abort, alloc: Global) -> Vec<u8> {
    let mut written = MessageWriteVec::builder(alloc, DATA_INDICATION, first_id()).expect(
        rt, "memory",
    );
    written
        .add_attribute(&XorPeerAddress::new(ipv4(3, 9000)))
        .expect(rt, "room");
    written
        .add_attribute(&Data::new(b"hello"))
        .expect(rt, "room");
    written.finish()
}

fn is_data_indication(rt: &impl Abort, message: &Message) {
    same(rt, message.message_type(), DATA_INDICATION);
    let peer = message.attribute::<XorPeerAddress>().expect(rt, "a peer");
    same(rt, peer.addr(), ipv4(3, 9000));
    let data = message.attribute::<Data>().expect(rt, "data");
    same(rt, data.data(), b"hello".as_slice());
    same(rt, message.attribute::<Lifetime>().is_err(), true);
}

#[test]
fn in_a_message(rt: HostRuntime) {
    let bytes = data_indication(&rt, rt.alloc());
    let message = Message::from_bytes(bytes.as_slice()).expect(&rt, "a message");
    is_data_indication(&rt, &message);
}

#[test]
fn methods(rt: HostRuntime) {
    let class = MessageClass::Request;
    let requests = [
        (ALLOCATE, 0x0003),
        (REFRESH, 0x0004),
        (SEND, 0x0006),
        (DATA, 0x0007),
        (CREATE_PERMISSION, 0x0008),
        (CHANNEL_BIND, 0x0009),
        (CONNECT, 0x000a),
        (CONNECTION_BIND, 0x000b),
        (CONNECTION_ATTEMPT, 0x000c),
    ];
    for (method, number) in requests {
        same(&rt, MessageType { method, class }.to_number(), number);
    }
}
