//! Parts of the caller's bytes, and packets that are built late.

use crate::api::{HELLO, is_hello};
use crate::fixture::{check, peer, same, same_bytes};
use std::alloc::Global;
use std::convert::AsSlice;
use std::process::Abort;
use turn_client_api::{
    DataRange, DataRangeOrOwned, DelayedMessageOrChannelSend, DelayedTransmit, TurnPeerData,
};
use turn_stun::data::Data;
use turn_stun::transaction::TransactionId;
use turn_types::TransportType;
use turn_types::transmit::{DelayedChannel, DelayedMessage, DelayedTransmitBuild};

/// Compares the payload with `hello`, from `start` up to `end`.
fn is_part(rt: &impl Abort, start: usize, end: usize, want: &[u8]) {
    let source = b"hello".as_slice();
    assert!(rt; start <= end && end <= source.len());
    let range = DataRange::new(source, start..end);
    same_bytes(rt, range.as_slice(), want);
    same_bytes(rt, *range.source(), source);
    same(rt, (range.range().start, range.range().end), (start, end));
}

#[test]
fn a_range_is_its_part(rt: HostRuntime) {
    is_part(&rt, 0, 0, b"");
    is_part(&rt, 5, 5, b"");
    is_part(&rt, 0, 1, b"h");
    is_part(&rt, 4, 5, b"o");
    is_part(&rt, 1, 4, b"ell");
    is_part(&rt, 0, 5, b"hello");
}

#[test]
fn a_payload_is_owned_without_its_message(rt: HostRuntime) {
    let range = DataRange::new(HELLO.as_slice(), 36..41);
    let payload = TurnPeerData::new(TransportType::Udp, peer(), DataRangeOrOwned::Range(range));
    is_hello(&rt, &payload, TransportType::Udp);
    let owned = payload.into_owned(rt.alloc()).expect(&rt, "memory");
    is_hello(&rt, &owned, TransportType::Udp);

    // It is owned now, so that it can be owned again.
    let again = owned.into_owned(rt.alloc()).expect(&rt, "memory");
    is_hello(&rt, &again, TransportType::Udp);
}

/// Makes a payload of a part of these bytes, and owns it.
fn is_owned(rt: &impl Abort, alloc: Global, source: Data) {
    assert!(rt; source.as_bytes().len() == 44);
    let range = DataRange::new(source, 36..41);
    let payload = TurnPeerData::new(TransportType::Tcp, peer(), DataRangeOrOwned::Range(range));
    is_hello(rt, &payload, TransportType::Tcp);
    let owned = payload.into_owned(alloc).expect(rt, "memory");
    is_hello(rt, &owned, TransportType::Tcp);
}

#[test]
fn a_part_of_owned_bytes_is_a_payload(rt: HostRuntime) {
    let bytes = HELLO.to_vec(rt.alloc()).expect(&rt, "memory");
    is_owned(&rt, rt.alloc(), Data::from(bytes));
}

/// Compares the bytes of a packet that is built.
fn builds<T: DelayedTransmitBuild>(rt: &impl Abort, alloc: Global, send: T, want: &[u8]) {
    same(rt, (send.len(), send.is_empty()), (want.len(), false));
    let built = send.build(alloc).expect(rt, "memory");
    same_bytes(rt, built.as_slice(), want);
}

/// Compares the bytes of a packet that is written.
fn writes<T: DelayedTransmitBuild + Drop>(rt: &impl Abort, alloc: Global, send: T, want: &[u8]) {
    let mut place = vec![in alloc; 0xaa; want.len()].expect(rt, "memory");
    assert!(rt; send.len() == place.len());
    same(rt, send.is_empty(), false);
    same(rt, send.write_into(place.as_mut_slice()), want.len());
    same_bytes(rt, place.as_slice(), want);
}

#[test]
fn a_part_is_sent_as_it_is(rt: HostRuntime) {
    let part = DelayedTransmit::new(HELLO.as_slice(), 36..41);
    builds(&rt, rt.alloc(), part, b"hello");
    let part = DelayedTransmit::new(HELLO.as_slice(), 36..41);
    writes(&rt, rt.alloc(), part, b"hello");
    let nothing = DelayedTransmit::new(HELLO.as_slice(), 44..44);
    check(&rt, nothing.is_empty());
}

/// Compares what stands around `payload` in a packet.
fn goes_in_parts(
    rt: &impl Abort,
    alloc: Global,
    send: &DelayedMessageOrChannelSend<&'static [u8]>,
    head: &[u8],
    payload: &[u8],
    padding: usize,
) {
    let mut place = vec![in alloc; 0xaa; send.head_len()].expect(rt, "memory");
    send.write_head(place.as_mut_slice());
    same_bytes(rt, place.as_slice(), head);
    same_bytes(rt, send.payload(), payload);
    same(rt, send.padding_len(), padding);
}

// The four ways to send to a peer, each with the bytes that it sends.

/// A ChannelData message with `hello`.
fn channel() -> DelayedMessageOrChannelSend<&'static [u8]> {
    DelayedMessageOrChannelSend::Channel(DelayedChannel::new(0x4000, b"hello"))
}

#[test]
fn data_goes_over_a_channel(rt: HostRuntime) {
    let frame = [0x40, 0, 0, 5, 0x68, 0x65, 0x6c, 0x6c, 0x6f, 0, 0, 0];
    builds(&rt, rt.alloc(), channel(), &frame);
    writes(&rt, rt.alloc(), channel(), &frame);
    goes_in_parts(&rt, rt.alloc(), &channel(), &frame[..4], b"hello", 3);
}

/// A Send indication with `hello`.
fn indication() -> DelayedMessageOrChannelSend<&'static [u8]> {
    let id = TransactionId::from_bytes([0, 0, 0, 0, 0, 0, 0, 0, 0, 0, 0, 1]);
    DelayedMessageOrChannelSend::Message(DelayedMessage::for_server(peer(), b"hello", id))
}

// A Send indication has the attributes of a Data indication (RFC 8656, sections 11.1 and 11.3).
#[test]
fn data_goes_in_an_indication(rt: HostRuntime) {
    let mut want = HELLO;
    want[1] = 0x16;
    builds(&rt, rt.alloc(), indication(), &want);
    writes(&rt, rt.alloc(), indication(), &want);
    goes_in_parts(&rt, rt.alloc(), &indication(), &want[..36], b"hello", 3);
}

#[test]
fn data_goes_as_it_is(rt: HostRuntime) {
    let sevens = [7; 7];
    let plain = DelayedMessageOrChannelSend::Data(sevens.as_slice());
    builds(&rt, rt.alloc(), plain, &sevens);
    let plain = DelayedMessageOrChannelSend::Data(sevens.as_slice());
    writes(&rt, rt.alloc(), plain, &sevens);
    let plain = DelayedMessageOrChannelSend::Data(b"hello".as_slice());
    goes_in_parts(&rt, rt.alloc(), &plain, b"", b"hello", 0);
}

/// Seven bytes that the packet owns.
fn owned_sevens(rt: &impl Abort, alloc: Global) -> DelayedMessageOrChannelSend<&'static [u8]> {
    DelayedMessageOrChannelSend::OwnedData([7; 7].to_vec(alloc).expect(rt, "memory"))
}

#[test]
fn owned_data_goes_as_it_is(rt: HostRuntime) {
    builds(&rt, rt.alloc(), owned_sevens(&rt, rt.alloc()), &[7; 7]);
    writes(&rt, rt.alloc(), owned_sevens(&rt, rt.alloc()), &[7; 7]);
    let sevens = owned_sevens(&rt, rt.alloc());
    goes_in_parts(&rt, rt.alloc(), &sevens, b"", &[7; 7], 0);
}
