//! Configurations.

use crate::api::{boxed, boxed_config};
use crate::fixture::{check, same, same_bytes};
use std::alloc::Global;
use std::num::NonZeroU16;
use std::process::Abort;
use std::time::Duration;
use turn_agent::schedule::RequestTimers;
use turn_auth::credentials::TurnCredentials;
use turn_auth::feature::Feature;
use turn_auth::integrity::IntegrityAlgorithm;
use turn_client_api::TurnConfig;
use turn_types::{AddressFamily, TransportType};

/// Compares the request settings.
fn asks_for(
    rt: &impl Abort,
    config: &TurnConfig,
    transport: TransportType,
    families: &[AddressFamily],
) {
    same(rt, config.allocation_transport(), transport);
    same(rt, config.address_families(), families);
    same_bytes(rt, config.credentials().user(), b"user");
}

/// Compares the signing settings.
fn signs_by(
    rt: &impl Abort,
    config: &TurnConfig,
    algorithms: &[IntegrityAlgorithm],
    anonymous_username: Feature,
) {
    same(rt, config.supported_integrity(), algorithms);
    same(rt, config.anonymous_username(), anonymous_username);
}

#[test]
fn a_new_configuration_asks_for_ipv4_over_udp(rt: HostRuntime) {
    let config = boxed_config(rt.alloc()).expect(&rt, "memory");
    asks_for(&rt, &config, TransportType::Udp, &[AddressFamily::IPV4]);
    signs_by(&rt, &config, &[IntegrityAlgorithm::Sha1], Feature::Auto);
    same(&rt, config.request_timers(), RequestTimers::default());
    same(&rt, config.max_stale_nonces().get(), 9);
    same(&rt, config.request_cadence(), Duration::from_millis(50));
    same(&rt, config.keepalive(), None);
    same(&rt, config.refresh_ahead(), Duration::from_secs(60));
    same(&rt, config.requests_timed_from_send(), false);
}

/// Sets each setting to another value than its default.
fn set_all(config: &mut TurnConfig) {
    config.set_allocation_transport(TransportType::Tcp);
    config.set_address_family(AddressFamily::IPV6);
    config.set_supported_integrity(IntegrityAlgorithm::Sha256);
    config.set_anonymous_username(Feature::Required);
    set_times(config);
}

#[test]
fn a_copy_has_the_limit_of_challenges(rt: HostRuntime) {
    let mut first = boxed_config(rt.alloc()).expect(&rt, "memory");
    let other = copy(&rt, rt.alloc(), &first);
    first.set_max_stale_nonces(NonZeroU16::MAX);
    let same_limit = copy(&rt, rt.alloc(), &first);
    same(&rt, same_limit.max_stale_nonces().get(), 65_535);
    check(&rt, *same_limit == *first);
    check(&rt, *other != *first);
}

#[test]
fn a_copy_has_the_pause_between_requests(rt: HostRuntime) {
    let mut first = boxed_config(rt.alloc()).expect(&rt, "memory");
    let other = copy(&rt, rt.alloc(), &first);
    first.set_request_cadence(Duration::from_millis(5));
    let same_pause = copy(&rt, rt.alloc(), &first);
    same(&rt, same_pause.request_cadence(), Duration::from_millis(5));
    check(&rt, *same_pause == *first);
    check(&rt, *other != *first);
}

#[test]
fn a_keepalive_is_at_least_a_second(rt: HostRuntime) {
    let mut first = boxed_config(rt.alloc()).expect(&rt, "memory");
    let other = copy(&rt, rt.alloc(), &first);
    first.set_keepalive(Some(Duration::from_millis(10)));
    same(&rt, first.keepalive(), Some(Duration::from_secs(1)));
    first.set_keepalive(Some(Duration::from_secs(15)));
    let same_keepalive = copy(&rt, rt.alloc(), &first);
    same(
        &rt,
        same_keepalive.keepalive(),
        Some(Duration::from_secs(15)),
    );
    check(&rt, *same_keepalive == *first);
    check(&rt, *other != *first);
    first.set_keepalive(None);
    check(&rt, *other == *first);
}

#[test]
fn a_refresh_is_at_least_a_second_ahead(rt: HostRuntime) {
    let mut first = boxed_config(rt.alloc()).expect(&rt, "memory");
    let other = copy(&rt, rt.alloc(), &first);
    first.set_refresh_ahead(Duration::from_millis(10));
    same(&rt, first.refresh_ahead(), Duration::from_secs(1));
    first.set_refresh_ahead(Duration::from_secs(120));
    let same_ahead = copy(&rt, rt.alloc(), &first);
    same(&rt, same_ahead.refresh_ahead(), Duration::from_secs(120));
    check(&rt, *same_ahead == *first);
    check(&rt, *other != *first);
}

#[test]
fn requests_are_timed_from_their_sends_if_set_so(rt: HostRuntime) {
    let mut first = boxed_config(rt.alloc()).expect(&rt, "memory");
    let other = copy(&rt, rt.alloc(), &first);
    first.set_requests_timed_from_send(true);
    let same_switch = copy(&rt, rt.alloc(), &first);
    same(&rt, same_switch.requests_timed_from_send(), true);
    check(&rt, *same_switch == *first);
    check(&rt, *other != *first);
}

/// Compares the times with those of `set_times`.
fn waits(rt: &impl Abort, config: &TurnConfig) {
    let timers = RequestTimers::new(
        Duration::from_millis(600),
        Duration::from_secs(1),
        3,
        Duration::from_secs(3),
    );
    same(rt, config.request_timers(), timers);
}

#[test]
fn each_setting_is_set(rt: HostRuntime) {
    let mut config = boxed_config(rt.alloc()).expect(&rt, "memory");
    set_all(&mut config);
    asks_for(&rt, &config, TransportType::Tcp, &[AddressFamily::IPV6]);
    signs_by(
        &rt,
        &config,
        &[IntegrityAlgorithm::Sha256],
        Feature::Required,
    );
    waits(&rt, &config);
}

/// Names families and algorithms twice.
fn add_twice(config: &mut TurnConfig) {
    config.set_address_family(AddressFamily::IPV6);
    config.add_address_family(AddressFamily::IPV6);
    config.add_address_family(AddressFamily::IPV4);
    config.add_address_family(AddressFamily::IPV6);
    config.add_supported_integrity(IntegrityAlgorithm::Sha1);
    config.add_supported_integrity(IntegrityAlgorithm::Sha256);
}

#[test]
fn what_is_named_twice_is_there_once(rt: HostRuntime) {
    let families = [AddressFamily::IPV6, AddressFamily::IPV4];
    let algorithms = [IntegrityAlgorithm::Sha1, IntegrityAlgorithm::Sha256];
    let mut config = boxed_config(rt.alloc()).expect(&rt, "memory");
    add_twice(&mut config);
    asks_for(&rt, &config, TransportType::Udp, &families);
    signs_by(&rt, &config, &algorithms, Feature::Auto);
}

fn copy(rt: &impl Abort, alloc: Global, first: &TurnConfig) -> Box<TurnConfig> {
    let copy = first.clone().expect(rt, "memory");
    boxed(alloc, copy).expect(rt, "memory")
}

/// Adding a family that is already in the list changes nothing, and adding another does.
fn differs_by_a_new_family(rt: &impl Abort, first: &TurnConfig, copy: &mut TurnConfig) {
    check(rt, *copy == *first);
    copy.add_address_family(AddressFamily::IPV4);
    check(rt, *copy == *first);
    copy.add_address_family(AddressFamily::IPV6);
    check(rt, *copy != *first);
}

/// The configuration of `user` with the password `word`.
fn with_another_password(rt: &impl Abort, alloc: Global) -> Box<TurnConfig> {
    let credentials = TurnCredentials::new(alloc, b"user", b"word").expect(rt, "memory");
    boxed(alloc, TurnConfig::new(alloc, credentials)).expect(rt, "memory")
}

#[test]
fn configurations_are_equal_by_their_settings(rt: HostRuntime) {
    let first = boxed_config(rt.alloc()).expect(&rt, "memory");
    let mut second = copy(&rt, rt.alloc(), &first);
    differs_by_a_new_family(&rt, &first, &mut second);
    let other = with_another_password(&rt, rt.alloc());
    check(&rt, *other != *first);
}

/// Sets the times to the default ones.
fn set_default_times(config: &mut TurnConfig) {
    config.set_request_retransmits(
        Duration::from_millis(500),
        Duration::MAX,
        7,
        Duration::from_secs(8),
    );
}

/// Three equal configurations: times are set in two of them, first to other values and then to the same.
fn are_told_apart(
    rt: &impl Abort,
    first: &TurnConfig,
    set: &mut TurnConfig,
    again: &mut TurnConfig,
) {
    set_default_times(set);
    same(rt, set.request_timers(), first.request_timers());
    check(rt, *set != *first);
    set_times(again);
    check(rt, *set != *again);
    set_times(set);
    check(rt, *set == *again);
}

#[test]
fn times_that_were_never_set_differ_from_the_same_times(rt: HostRuntime) {
    let first = boxed_config(rt.alloc()).expect(&rt, "memory");
    let mut set = copy(&rt, rt.alloc(), &first);
    let mut again = copy(&rt, rt.alloc(), &first);
    are_told_apart(&rt, &first, &mut set, &mut again);
}

fn set_times(config: &mut TurnConfig) {
    config.set_request_retransmits(
        Duration::from_millis(600),
        Duration::from_secs(1),
        3,
        Duration::from_secs(3),
    );
}
