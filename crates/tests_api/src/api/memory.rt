//! Each failed memory allocation is an answer here, and the state after it is asserted. So these pass for any
//! memory allocation that fails.

use crate::api::{HELLO, boxed_config, is_hello};
use crate::fixture::{check, peer, same, same_bytes};
use std::alloc::{AllocError, Global};
use std::fmt::Debug;
use std::process::Abort;
use turn_client_api::{
    BindChannelError, CreatePermissionError, DataRange, DataRangeOrOwned,
    DelayedMessageOrChannelSend, DelayedTransmit, DeleteError, SendError, TcpAllocateError,
    TcpConnectError, TurnConfig, TurnPeerData,
};
use turn_types::TransportType;
use turn_types::transmit::DelayedTransmitBuild;

/// Owns a payload, or gets it back unchanged.
fn own<'a>(
    rt: &impl Abort,
    alloc: Global,
    payload: TurnPeerData<&'a [u8]>,
) -> Option<TurnPeerData<&'a [u8]>> {
    match payload.into_owned(alloc) {
        Ok(owned) => {
            is_hello(rt, &owned, TransportType::Udp);
            None
        }
        Err(back) => {
            is_hello(rt, &back, TransportType::Udp);
            Some(back)
        }
    }
}

#[test]
fn a_payload_without_memory_is_handed_back(rt: HostRuntime) {
    let range = DataRange::new(HELLO.as_slice(), 36..41);
    let payload = TurnPeerData::new(TransportType::Udp, peer(), DataRangeOrOwned::Range(range));
    if let Some(back) = own(&rt, rt.alloc(), payload) {
        let _again = own(&rt, rt.alloc(), back);
    }
}

fn is_owned_at_once(rt: &impl Abort, alloc: Global, bytes: Vec<u8>) {
    let owned = DataRangeOrOwned::Owned(bytes);
    let payload: TurnPeerData<Vec<u8>> = TurnPeerData::new(TransportType::Udp, peer(), owned);
    match payload.into_owned(alloc) {
        Ok(owned) => same_bytes(rt, owned.data(), &HELLO),
        // memory was allocated
        Err(_) => check(rt, false),
    }
}

fn is_built_at_once(rt: &impl Abort, alloc: Global, bytes: Vec<u8>) {
    let send: DelayedMessageOrChannelSend<Vec<u8>> = DelayedMessageOrChannelSend::OwnedData(bytes);
    check(rt, send.build(alloc).is_ok());
}

#[test]
fn owned_bytes_take_no_memory(rt: HostRuntime) {
    if let Ok(bytes) = HELLO.to_vec(rt.alloc()) {
        is_owned_at_once(&rt, rt.alloc(), bytes);
    }
    if let Ok(bytes) = HELLO.to_vec(rt.alloc()) {
        is_built_at_once(&rt, rt.alloc(), bytes);
    }
}

fn is_copied_or_stays(rt: &impl Abort, first: &TurnConfig) {
    match first.clone() {
        Ok(copy) => check(rt, copy == *first),
        Err(AllocError) => same_bytes(rt, first.credentials().user(), b"user"),
    }
}

#[test]
fn a_configuration_without_memory_stays(rt: HostRuntime) {
    if let Ok(first) = boxed_config(rt.alloc()) {
        is_copied_or_stays(&rt, &first);
    }
}

/// If a packet is built, it has these bytes.
fn builds_if_at_all<T: DelayedTransmitBuild>(rt: &impl Abort, alloc: Global, send: T, want: &[u8]) {
    if let Ok(built) = send.build(alloc) {
        same_bytes(rt, built.as_slice(), want);
    }
}

#[test]
fn what_is_not_built_can_be_made_again(rt: HostRuntime) {
    for _ in 0..2 {
        let part = DelayedTransmit::new(HELLO.as_slice(), 36..41);
        builds_if_at_all(&rt, rt.alloc(), part, b"hello");
        let plain = DelayedMessageOrChannelSend::Data(HELLO.as_slice());
        builds_if_at_all(&rt, rt.alloc(), plain, &HELLO);
    }
}

/// A call that propagates an allocation failure by `?` returns its own error.
#[test]
fn a_refusal_is_each_error(rt: HostRuntime) {
    is_error(&rt, BindChannelError::OutOfMemory);
    is_error(&rt, CreatePermissionError::OutOfMemory);
    is_error(&rt, DeleteError::OutOfMemory);
    is_error(&rt, SendError::OutOfMemory);
    is_error(&rt, TcpConnectError::OutOfMemory);
    is_error(&rt, TcpAllocateError::OutOfMemory);
}

fn is_error<E: From<AllocError> + PartialEq + Debug + Drop>(rt: &impl Abort, want: E) {
    same(rt, E::from(AllocError), want);
}
