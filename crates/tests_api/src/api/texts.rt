//! Printed texts.

use crate::api::boxed_config;
use crate::fixture::{check, same};
use std::alloc::Global;
use std::error::Error;
use std::process::Abort;
use turn_client_api::{
    BindChannelError, CreatePermissionError, DeleteError, KeepError, SendError, TcpAllocateError,
    TcpConnectError,
};
use turn_stun::instant::Instant;

/// Compares the text of an error.
fn says(rt: &impl Abort, alloc: Global, error: &impl Error, want: &str) {
    let text = format!(in alloc; "{error}").expect(rt, "memory");
    same(rt, text.as_str(), want);
}

#[test]
fn errors_of_bind_channel_say_what_is_wrong(rt: HostRuntime) {
    let until = Instant::from_nanos(900_100_000_000);
    says(
        &rt,
        rt.alloc(),
        &BindChannelError::AlreadyExists,
        "The channel identifier already exists and cannot be recreated.",
    );
    says(
        &rt,
        rt.alloc(),
        &BindChannelError::ExpiredChannelExists(until),
        "The channel for requested peer address has expired and cannot be recreated until 900.100000000s.",
    );
    says(
        &rt,
        rt.alloc(),
        &BindChannelError::NoAllocation,
        "There is no connection to the TURN server that can handle this channel.",
    );
    says(
        &rt,
        rt.alloc(),
        &BindChannelError::OutOfMemory,
        "out of memory",
    );
}

#[test]
fn errors_of_create_permission_say_what_is_wrong(rt: HostRuntime) {
    says(
        &rt,
        rt.alloc(),
        &CreatePermissionError::AlreadyExists,
        "The permission already exists and cannot be recreated.",
    );
    says(
        &rt,
        rt.alloc(),
        &CreatePermissionError::NoAllocation,
        "There is no connection to the TURN server that can handle this permission",
    );
    says(
        &rt,
        rt.alloc(),
        &CreatePermissionError::OutOfMemory,
        "out of memory",
    );
}

#[test]
fn errors_of_keeping_and_of_delete_say_what_is_wrong(rt: HostRuntime) {
    says(
        &rt,
        rt.alloc(),
        &KeepError::NotGranted,
        "There is no such permission or channel",
    );
    says(
        &rt,
        rt.alloc(),
        &DeleteError::NoAllocation,
        "There is no connection to the TURN server",
    );
    says(&rt, rt.alloc(), &DeleteError::OutOfMemory, "out of memory");
}

#[test]
fn errors_of_send_to_say_what_is_wrong(rt: HostRuntime) {
    says(
        &rt,
        rt.alloc(),
        &SendError::NoAllocation,
        "There is no connection to the TURN server",
    );
    says(
        &rt,
        rt.alloc(),
        &SendError::NoPermission,
        "There is no permission installed for the requested peer",
    );
    says(
        &rt,
        rt.alloc(),
        &SendError::NoTcpSocket,
        "There is no local TCP socket for the requested peer",
    );
    says(&rt, rt.alloc(), &SendError::OutOfMemory, "out of memory");
}

#[test]
fn errors_of_tcp_connect_say_what_is_wrong(rt: HostRuntime) {
    says(
        &rt,
        rt.alloc(),
        &TcpConnectError::AlreadyExists,
        "The TCP connection already exists and cannot be recreated.",
    );
    says(
        &rt,
        rt.alloc(),
        &TcpConnectError::NoAllocation,
        "There is no connection to the TURN server that can handle this TCP socket.",
    );
    says(
        &rt,
        rt.alloc(),
        &TcpConnectError::NoPermission,
        "There is no permission installed for the requested peer",
    );
    says(
        &rt,
        rt.alloc(),
        &TcpConnectError::OutOfMemory,
        "out of memory",
    );
}

#[test]
fn errors_of_tcp_allocate_say_what_is_wrong(rt: HostRuntime) {
    says(
        &rt,
        rt.alloc(),
        &TcpAllocateError::AlreadyExists,
        "The TCP connection already exists and cannot be recreated.",
    );
    says(
        &rt,
        rt.alloc(),
        &TcpAllocateError::NoAllocation,
        "There is no connection to the TURN server that can handle this TCP socket.",
    );
    says(
        &rt,
        rt.alloc(),
        &TcpAllocateError::OutOfMemory,
        "out of memory",
    );
}

/// The bytes of `user`, and not those of `pass`.
fn is_without_password(rt: &impl Abort, text: &str) {
    check(rt, text.contains("[117, 115, 101, 114]"));
    check(rt, !text.contains("[112, 97, 115, 115]"));
    check(rt, !text.contains("pass"));
}

#[test]
fn no_password_is_printed(rt: HostRuntime) {
    let config = boxed_config(rt.alloc()).expect(&rt, "memory");
    let text = format!(in rt.alloc(); "{config:?}").expect(&rt, "memory");
    is_without_password(&rt, text.as_str());
}
