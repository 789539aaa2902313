//! Whether the path to the server still carries packets.

use crate::fixture::{at, check};
use std::process::Abort;
use turn_agent::NumberSource;
use turn_session_book::causes::Why;
use turn_session_book::tags::Tag;
use turn_session_path::path::{Path, PathResponse, PathTask};
use turn_session_path::round::CheckRequest;
use turn_stun::instant::Instant;
use turn_stun::transaction::TransactionId;
use turn_stun::transport::TransportType;

/// What a path leads to, whatever the IDs of its requests.
#[derive(Clone, Copy, PartialEq, Eq)]
enum Task {
    Binding,
    Bare,
    Unanswered,
    Doubt,
    /// The session ends: so many probes had no response.
    Silent(u8),
    /// The session ends by errors of the socket, of which this was the first.
    Broken(u32),
    /// The session ends for another cause.
    Ends,
}

/// The time in milliseconds at which a path next has something to do, and what.
type Row = (u32, Task);

/// The ticket of each check.
const TICKET: u32 = 7;

/// The time between two probes, in nanoseconds: 15 s.
const EVERY: u64 = 15_000_000_000;

/// A path over this transport, which is probed or not, from 0 s on.
fn path(transport: TransportType, every: Option<u64>) -> Path {
    Path::new(
        transport,
        every,
        NumberSource::from_seed([0; 32]),
        Instant::ZERO,
    )
}

fn task_of(task: PathTask) -> Task {
    match task {
        PathTask::Send(CheckRequest::Binding, _) => Task::Binding,
        PathTask::Send(CheckRequest::BarePermission, _) => Task::Bare,
        PathTask::Unanswered(_) => Task::Unanswered,
        PathTask::Doubt => Task::Doubt,
        PathTask::End(why) => end_of(why),
    }
}

fn end_of(why: Why) -> Task {
    match why {
        Why::Unanswered(rounds) => Task::Silent(rounds),
        Why::SocketErrors(tag) => Task::Broken(tag.0),
        _ => Task::Ends,
    }
}

/// The ID of the request in a task.
fn id_of(task: &Option<PathTask>) -> Option<TransactionId> {
    match task {
        Some(PathTask::Send(_, id)) => Some(*id),
        _ => None,
    }
}

/// Whether the path leads to this.
fn leads_to(task: &Option<PathTask>, wanted: Task) -> bool {
    match task {
        Some(task) => task_of(*task) == wanted,
        None => false,
    }
}

/// Asserts that the path has nothing to do before each of these times, and then this, and nothing else.
fn runs(rt: &impl Abort, path: &mut Path, rows: &[Row]) {
    for (time, task) in rows {
        check(rt, path.due() == Some(at(*time)), *time);
        check(rt, path.poll(at(time.saturating_sub(1))).is_none(), *time);
        check(rt, path.poll(at(*time)).map(task_of) == Some(*task), *time);
        check(rt, path.poll(at(*time)).is_none(), *time);
    }
}

/// Asserts that nothing will be due on the path.
fn rests(rt: &impl Abort, path: &mut Path, case: u32) {
    check(rt, path.due().is_none(), case);
    check(rt, path.poll(at(1_000_000)).is_none(), case);
}

/// A check at 1 s without a response, by RFC 8489, section 6.2.1, for three transmissions.
const CHECK: &[Row] = &[
    (1_000, Task::Binding),
    (1_500, Task::Binding),
    (2_500, Task::Binding),
    (4_500, Task::Unanswered),
];

#[test]
fn a_check_over_udp_is_sent_three_times(rt: HostRuntime) {
    let mut path = path(TransportType::Udp, None);
    rests(&rt, &mut path, 0);
    check(&rt, path.check(TICKET, at(1_000)) == TICKET, 1);
    runs(&rt, &mut path, CHECK);
    rests(&rt, &mut path, 2);
}

// RFC 8489, section 6.2.2: over a stream no request is sent again.
#[test]
fn a_check_over_a_stream_is_sent_once(rt: HostRuntime) {
    let mut path = path(TransportType::Tcp, None);
    check(&rt, path.check(TICKET, at(1_000)) == TICKET, 0);
    runs(
        &rt,
        &mut path,
        &[(1_000, Task::Binding), (4_500, Task::Unanswered)],
    );
    rests(&rt, &mut path, 1);
}

// RFC 8489, section 6.2.1: what is sent again has the same ID.
#[test]
fn checks_at_one_time_share_a_request(rt: HostRuntime) {
    let mut path = path(TransportType::Udp, None);
    check(&rt, path.check(TICKET, at(0)) == TICKET, 0);
    let first = path.poll(at(0));
    check(&rt, path.check(8, at(100)) == TICKET, 1);
    check(&rt, path.poll(at(100)).is_none(), 2);
    let second = path.poll(at(500));
    check(&rt, first.is_some() && first == second, 3);
    check(
        &rt,
        matches!(first, Some(PathTask::Send(CheckRequest::Binding, _))),
        4,
    );
}

/// The response to the request in this task.
fn respond(path: &mut Path, task: &Option<PathTask>, now: u32) -> Option<PathResponse> {
    id_of(task).map(|id| path.respond(id, at(now)))
}

#[test]
fn a_response_ends_the_check(rt: HostRuntime) {
    let mut path = path(TransportType::Udp, None);
    check(&rt, path.check(TICKET, at(0)) == TICKET, 0);
    let task = path.poll(at(0));
    let stranger = TransactionId::from_bytes([9; 12]);
    check(
        &rt,
        path.respond(stranger, at(20)) == PathResponse::Other,
        1,
    );
    check(
        &rt,
        respond(&mut path, &task, 20) == Some(PathResponse::Check(TICKET)),
        2,
    );
    // it comes again
    check(
        &rt,
        respond(&mut path, &task, 30) == Some(PathResponse::Other),
        3,
    );
    rests(&rt, &mut path, 4);
    check(&rt, path.check(8, at(2_000_000)) == 8, 5);
    check(&rt, id_of(&path.poll(at(2_000_000))) != id_of(&task), 6);
}

/// A probe over UDP that begins then, without a response, and what its end leads to.
fn silent_probe(began: u32, end: Task) -> [Row; 4] {
    [
        (began, Task::Binding),
        (began.saturating_add(500), Task::Binding),
        (began.saturating_add(1_500), Task::Bare),
        (began.saturating_add(3_500), end),
    ]
}

/// The same over a stream, where no request is sent again.
fn silent_probe_of_stream(began: u32, end: Task) -> [Row; 3] {
    [
        (began, Task::Binding),
        (began.saturating_add(1_500), Task::Bare),
        (began.saturating_add(3_500), end),
    ]
}

#[test]
fn three_probes_without_a_response_end_a_session(rt: HostRuntime) {
    let mut path = path(TransportType::Udp, Some(EVERY));
    runs(&rt, &mut path, &silent_probe(15_000, Task::Doubt));
    runs(&rt, &mut path, &silent_probe(30_000, Task::Doubt));
    runs(&rt, &mut path, &silent_probe(45_000, Task::Silent(3)));
}

#[test]
fn three_probes_of_a_stream_without_a_response_end_a_session(rt: HostRuntime) {
    let mut path = path(TransportType::Tcp, Some(EVERY));
    runs(&rt, &mut path, &silent_probe_of_stream(15_000, Task::Doubt));
    runs(&rt, &mut path, &silent_probe_of_stream(30_000, Task::Doubt));
    runs(
        &rt,
        &mut path,
        &silent_probe_of_stream(45_000, Task::Silent(3)),
    );
}

#[test]
fn what_is_received_between_two_probes_shows_that_the_path_works(rt: HostRuntime) {
    let mut path = path(TransportType::Udp, Some(EVERY));
    runs(&rt, &mut path, &silent_probe(15_000, Task::Doubt));
    runs(&rt, &mut path, &silent_probe(30_000, Task::Doubt));
    path.received(at(40_000));
    runs(&rt, &mut path, &silent_probe(45_000, Task::Doubt));
}

#[test]
fn what_is_received_during_a_probe_ends_it(rt: HostRuntime) {
    let mut path = path(TransportType::Udp, Some(EVERY));
    runs(&rt, &mut path, &[(15_000, Task::Binding)]);
    path.received(at(15_100));
    runs(
        &rt,
        &mut path,
        &[(30_000, Task::Binding), (30_500, Task::Binding)],
    );
}

#[test]
fn a_server_that_answers_the_bare_request_alone_is_asked_by_it(rt: HostRuntime) {
    let mut path = path(TransportType::Udp, Some(EVERY));
    runs(
        &rt,
        &mut path,
        &[(15_000, Task::Binding), (15_500, Task::Binding)],
    );
    let bare = path.poll(at(16_500));
    check(&rt, leads_to(&bare, Task::Bare), 0);
    check(
        &rt,
        respond(&mut path, &bare, 16_520) == Some(PathResponse::Own),
        1,
    );
    runs(
        &rt,
        &mut path,
        &[
            (30_000, Task::Bare),
            (30_500, Task::Bare),
            (31_500, Task::Bare),
        ],
    );
}

#[test]
fn a_server_that_answers_binding_requests_is_asked_by_them(rt: HostRuntime) {
    let mut path = path(TransportType::Udp, Some(EVERY));
    let binding = path.poll(at(15_000));
    check(&rt, leads_to(&binding, Task::Binding), 0);
    check(
        &rt,
        respond(&mut path, &binding, 15_020) == Some(PathResponse::Own),
        1,
    );
    check(
        &rt,
        respond(&mut path, &binding, 15_040) == Some(PathResponse::Other),
        2,
    );
    runs(
        &rt,
        &mut path,
        &[
            (30_000, Task::Binding),
            (30_500, Task::Binding),
            (31_500, Task::Bare),
        ],
    );
}

#[test]
fn a_probe_is_not_made_up_for(rt: HostRuntime) {
    let mut path = path(TransportType::Udp, Some(EVERY));
    // this host slept for two minutes
    let late = path.poll(at(120_000));
    check(
        &rt,
        respond(&mut path, &late, 120_020) == Some(PathResponse::Own),
        0,
    );
    let next = path.poll(at(120_020));
    check(
        &rt,
        respond(&mut path, &next, 120_040) == Some(PathResponse::Own),
        1,
    );
    check(&rt, path.poll(at(120_040)).is_none(), 2);
    check(&rt, path.due() == Some(at(135_020)), 3);
}

/// Reports an error of the socket at this time, and asserts what comes of it.
fn fails(rt: &impl Abort, path: &mut Path, time: u32, tag: u32, row: Row) {
    path.failed(Tag(tag), at(time));
    runs(rt, path, &[row]);
}

#[test]
fn three_seconds_with_an_error_of_the_socket_in_each_end_a_session(rt: HostRuntime) {
    let mut path = path(TransportType::Udp, None);
    path.failed(Tag(4), at(10_000));
    check(
        &rt,
        path.poll(at(10_000)).map(task_of) == Some(Task::Binding),
        0,
    );
    fails(&rt, &mut path, 10_300, 5, (11_000, Task::Binding));
    fails(&rt, &mut path, 11_300, 6, (12_000, Task::Binding));
    path.failed(Tag(7), at(12_300));
    check(&rt, path.due() == Some(at(13_000)), 1);
    check(
        &rt,
        path.poll(at(13_000)).map(task_of) == Some(Task::Broken(4)),
        2,
    );
}

#[test]
fn one_error_of_the_socket_passes(rt: HostRuntime) {
    let mut path = path(TransportType::Udp, None);
    path.failed(Tag(4), at(10_000));
    check(
        &rt,
        path.poll(at(10_000)).map(task_of) == Some(Task::Binding),
        0,
    );
    check(&rt, path.due() == Some(at(11_000)), 1);
    check(&rt, path.poll(at(11_000)).is_none(), 2);
    rests(&rt, &mut path, 3);
}

#[test]
fn a_response_forgets_the_errors_of_the_socket(rt: HostRuntime) {
    let mut path = path(TransportType::Udp, None);
    path.failed(Tag(4), at(10_000));
    let task = path.poll(at(10_000));
    path.failed(Tag(5), at(10_010));
    check(
        &rt,
        respond(&mut path, &task, 10_020) == Some(PathResponse::Own),
        0,
    );
    rests(&rt, &mut path, 1);
}

#[test]
fn an_error_of_a_stream_is_its_end_and_no_sign_of_the_path(rt: HostRuntime) {
    let mut path = path(TransportType::Tcp, None);
    path.failed(Tag(4), at(10_000));
    rests(&rt, &mut path, 0);
}

#[test]
fn a_stream_that_takes_nothing_for_60_s_ends(rt: HostRuntime) {
    let mut path = path(TransportType::Tcp, None);
    path.full(at(1_000));
    path.full(at(2_000));
    check(&rt, path.due() == Some(at(61_000)), 0);
    check(&rt, path.poll(at(60_999)).is_none(), 1);
    check(
        &rt,
        path.poll(at(61_000)) == Some(PathTask::End(Why::StreamFull)),
        2,
    );
}

#[test]
fn a_full_stream_over_which_something_comes_does_not_end(rt: HostRuntime) {
    let mut path = path(TransportType::Tcp, None);
    path.full(at(1_000));
    path.received(at(31_000));
    check(&rt, path.poll(at(90_999)).is_none(), 0);
    check(&rt, path.due() == Some(at(91_000)), 1);
    path.room();
    rests(&rt, &mut path, 2);
}

/// Sends data less than 10 s before each request of a probe that begins then, and asserts that nothing else comes of it.
fn uploads(rt: &impl Abort, path: &mut Path, began: u32) {
    for (time, task) in [
        (began, Task::Binding),
        (began.saturating_add(1_500), Task::Bare),
    ] {
        path.sent(at(time.saturating_sub(9_999)));
        check(rt, path.poll(at(time.saturating_sub(1))).is_none(), time);
        check(rt, path.due() == Some(at(time)), time);
        check(rt, path.poll(at(time)).map(task_of) == Some(task), time);
    }
}

#[test]
fn silence_during_an_upload_over_a_stream_does_not_count(rt: HostRuntime) {
    let mut path = path(TransportType::Tcp, Some(EVERY));
    uploads(&rt, &mut path, 15_000);
    uploads(&rt, &mut path, 30_000);
    uploads(&rt, &mut path, 45_000);
    check(&rt, path.poll(at(48_500)).is_none(), 0);
    runs(&rt, &mut path, &silent_probe_of_stream(60_000, Task::Doubt));
}

#[test]
fn an_upload_over_udp_excuses_no_silence(rt: HostRuntime) {
    let mut path = path(TransportType::Udp, Some(EVERY));
    path.sent(at(14_999));
    runs(
        &rt,
        &mut path,
        &[(15_000, Task::Binding), (15_500, Task::Binding)],
    );
    path.sent(at(15_600));
    runs(
        &rt,
        &mut path,
        &[(16_500, Task::Bare), (18_500, Task::Doubt)],
    );
}
