//! A client for C programs: an opaque pointer to a session in a box. One function makes it, one answers requests, one only
//! looks at it, and one frees it. Two read packets, and two compute how many grants are kept, without a client. All else is in
//! `turn_c_calls`; `include/yarrowdoor.h` declares these functions.
//!
//! Bytes and buffers are passed by a pointer and a length; where the length is 0, the pointer says nothing, and may be null. So
//! may the pointer to the data of a head, whose length alone counts.
//!
//! What nothing here can check is the C program's to keep: the pointer is one that [`yarrowdoor_new`] wrote and that was
//! not freed, no two arguments overlap, nothing else touches the session's memory, or the bytes and the buffer of a call,
//! and one call is made at a time.
#![tactic(auto)]

ghost use Rattle.std.specs.Prelude.{ℕ, ◌≡◌, ◌↔◌, ◌≤◌, ◌<◌, ◌^◌, max, IsSomeAnd};
ghost use types.Logic.{sem};
ghost use Rattle.turn_c_calls.specs.Held.{Held};
ghost use Rattle.turn_c_calls.specs.Hints.{SaysFirst, SaysPlace};
ghost use Rattle.turn_c_calls.specs.Room.{HasRoomWith, ahead_by, cadence_by, longest_in};
ghost use Rattle.turn_c.specs.Bytes.{Given, bytes_at, place_of};
ghost use Rattle.turn_c.specs.Opaque.{LookDoes, Named, Passed, called_at, held_at, holds_at, kept_at, named_at, new_at, passed_at, read_len};
ghost use Rattle.turn_c.specs.Starts.{Starts};

use std::alloc::Global;
use std::slice;
use turn_c_calls::answer::Answer;
use turn_c_calls::code::SEND_HEAD;
use turn_c_calls::hints::{Hints, read_attribute, read_message};
use turn_c_calls::library::{finish, look, start, step};
use turn_c_calls::request::Request;
use turn_c_calls::room::{Load, kept_grants, longest_cadence};
use turn_c_calls::session::Session;
use turn_c_calls::settings::Settings;

/// The pointer, or where there are no bytes another, which is not null.
fn place_of(at: *const u8, len: usize, other: *const u8) -> *const u8
    ensures { result ≡ place_of at len other }
{
    if len == 0 { other } else { at }
}

/// How many bytes of the data a request reads: none if it asks for a head, which only counts them.
fn read_len(request: &Request, len: usize) -> usize
    ensures { result ≡ read_len request.now len }
{
    if request.kind == SEND_HEAD { 0 } else { len }
}

/// Makes a session with a new client, and writes its pointer to `place`. Returns 0.
///
/// # Errors
///
/// Returns `OUT_OF_MEMORY`, `BAD_SETTINGS`, `BAD_CREDENTIALS` or `BAD_SEED`, and leaves `place` as it was.
#[unsafe(no_mangle)]
pub unsafe extern "C" fn yarrowdoor_new(
    alloc: Global,
    settings: &Settings,
    user: *const u8,
    user_len: usize,
    password: *const u8,
    password_len: usize,
    seed: *const u8,
    seed_len: usize,
    place: &mut *mut u8,
) -> u32
    ghost given: { Named }
    requires* { sem 𝓛 (named_at user user_len password password_len seed seed_len given) }
    ensures* { sem 𝓛 (new_at settings.now given.user.bytes given.password.bytes given.seed.bytes place.old place.new result)
        ∗ sem 𝓛 (named_at user user_len password password_len seed seed_len given) }
{
    let other = &raw const *settings as *const u8;
    let user = slice::from_raw_parts(place_of(user, user_len, other), user_len);
    let password = slice::from_raw_parts(place_of(password, password_len, other), password_len);
    let seed = slice::from_raw_parts(place_of(seed, seed_len, other), seed_len);
    make_session(alloc, settings, user, password, seed, place)
}

/// The same, for bytes that are lent.
fn make_session(
    alloc: Global,
    settings: &Settings,
    user: &[u8],
    password: &[u8],
    seed: &[u8],
    place: &mut *mut u8,
) -> u32
    ensures* { sem 𝓛 (new_at settings.now user.now password.now seed.now place.old place.new result) }
{
    match started(alloc, settings, user, password, seed) {
        Ok(session) => {
            put(place, Box::into_raw(session) as *mut u8);
            0
        }
        Err(code) => code,
    }
}

/// A new session, or the number of the error.
fn started(
    alloc: Global,
    settings: &Settings,
    user: &[u8],
    password: &[u8],
    seed: &[u8],
) -> Result<Box<Session>, u32>
    ensures { Starts settings.now user.now password.now seed.now result }
{
    match start(alloc, settings, user, password, seed) {
        Ok(session) => Ok(session),
        Err(error) => Err(error.code()),
    }
}

/// Writes a pointer to a place.
fn put(place: &mut *mut u8, at: *mut u8)
    ensures { place.new ≡ at }
{
    *place = at;
}

/// Answers a request with its data, and returns the kind of the answer. Bytes of the answer are written to the buffer. For a
/// head the data is only counted: nothing need lie at `bytes`.
///
/// # Errors
///
/// Each is a kind of the answer: `turn_c_calls::code` has them, and says what each leaves.
#[unsafe(no_mangle)]
pub unsafe extern "C" fn yarrowdoor_call(
    session: *mut u8,
    alloc: Global,
    request: &Request,
    bytes: *const u8,
    bytes_len: usize,
    buffer: *mut u8,
    buffer_len: usize,
    answer: &mut Answer,
) -> u32
    ghost was: { Passed }
    requires* { sem 𝓛 (holds_at session was.session) ∗ sem 𝓛 (passed_at bytes (read_len request.now bytes_len) buffer buffer_len was) }
    ensures* { sem 𝓛 (called_at session bytes bytes_len buffer buffer_len request.now was answer.old answer.new result) }
{
    let len = read_len(request, bytes_len);
    let other = &raw const *request as *const u8;
    let bytes = slice::from_raw_parts(place_of(bytes, len, other), len);
    let buffer = slice::from_raw_parts_mut(
        place_of(buffer, buffer_len, other) as *mut u8,
        buffer_len,
    );
    answer_request(session, alloc, request, bytes, bytes_len, buffer, answer)
}

/// The same, for bytes and a buffer that are lent.
unsafe fn answer_request(
    session: *mut u8,
    alloc: Global,
    request: &Request,
    bytes: &[u8],
    len: usize,
    buffer: &mut [u8],
    answer: &mut Answer,
) -> u32
    ghost was: { Held }
    requires* { sem 𝓛 (holds_at session was) }
    ensures* { sem 𝓛 (kept_at session was request.now bytes.now len buffer.old buffer.new answer.old answer.new result) }
{
    step(
        &mut *(session as *mut Session),
        alloc,
        request,
        bytes,
        len,
        buffer,
        answer,
    )
}

/// Answers a request that only looks at the client, and returns the kind of the answer. The session is only read.
///
/// # Errors
///
/// Returns `BAD_TIME`, or `BAD_CALL` if it is another request or lacks what it needs, and changes only the answer's kind.
#[unsafe(no_mangle)]
pub unsafe extern "C" fn yarrowdoor_look(
    session: *const u8,
    request: &Request,
    answer: &mut Answer,
) -> u32
    ghost was: { Held }
    requires* { sem 𝓛 (holds_at session was) }
    ensures* { sem 𝓛 (holds_at session was) ∗ ⌜ LookDoes request.now was answer.old answer.new result ⌝ }
{
    look(&*(session as *const Session), request, answer)
}

/// Reads the first frame of bytes that came over this transport, and returns the kind of what it is.
///
/// # Errors
///
/// Returns `BAD_CALL` if there is no such transport, `NO_FRAME` if the bytes begin no frame, and over TCP `NOTHING` if more
/// are needed.
#[unsafe(no_mangle)]
pub unsafe extern "C" fn yarrowdoor_read_message(
    transport: u32,
    at: *const u8,
    len: usize,
    message: &mut Hints,
) -> u32
    ghost given: { Given }
    requires* { sem 𝓛 (bytes_at given.share at len given.bytes) }
    ensures* { sem 𝓛 (bytes_at given.share at len given.bytes) ∗ ⌜ SaysFirst transport given.bytes message.new × (result ≡ message.new.kind) ⌝ }
{
    let place = place_of(at, len, &raw const *message as *const u8);
    let bytes = slice::from_raw_parts(place, len);
    read_message(transport, bytes, message)
}

/// Reads where the value of the first attribute of this type lies, of the message that the bytes are or begin with. Returns
/// `YES`, or `NO` if there is none.
#[unsafe(no_mangle)]
pub unsafe extern "C" fn yarrowdoor_read_attribute(
    at: *const u8,
    len: usize,
    attribute_type: u16,
    start: &mut usize,
    value_len: &mut usize,
) -> u32
    ghost given: { Given }
    requires* { sem 𝓛 (bytes_at given.share at len given.bytes) }
    ensures* { sem 𝓛 (bytes_at given.share at len given.bytes) ∗ ⌜ SaysPlace attribute_type given.bytes start.new value_len.new result ⌝ }
{
    let place = place_of(at, len, &raw const *start as *const u8);
    let bytes = slice::from_raw_parts(place, len);
    read_attribute(bytes, attribute_type, start, value_len)
}

/// How many grants are kept beside this load by a client with these settings, of which none lasts less than a permission: none of so
/// many is lost, and one more may be. It is 0 if there is room for none, and `u64::MAX` if no packet takes any time.
#[unsafe(no_mangle)]
pub extern "C" fn yarrowdoor_kept_grants(
    load: &Load,
    request_cadence: u64,
    refresh_ahead: u64,
) -> u64
    ensures { (count : ℕ) → 1 ≤ count → count < 2 ^ 64
        → (count ≤ result) ↔ HasRoomWith count load.now (cadence_by request_cadence) (ahead_by refresh_ahead) }
{
    kept_grants(load, request_cadence, refresh_ahead)
}

/// The longest pause between two requests at which so many grants are kept beside this load, as a setting: `NO_PAUSE` if they are
/// kept without a pause alone, and 0 if they are too many for any. No grant is taken as one.
#[unsafe(no_mangle)]
pub extern "C" fn yarrowdoor_longest_cadence(load: &Load, count: u64, refresh_ahead: u64) -> u64
    ensures { (cadence : ℕ) → IsSomeAnd (longest_in result) (λ longest. cadence ≤ longest)
        ↔ HasRoomWith (max 1 count) load.now cadence (ahead_by refresh_ahead) }
{
    longest_cadence(load, count, refresh_ahead)
}

/// Frees the session, or does nothing where the pointer is null. The pointer is not to be used again.
#[unsafe(no_mangle)]
pub unsafe extern "C" fn yarrowdoor_free(alloc: Global, session: *mut u8)
    ghost was: { Held }
    requires* { sem 𝓛 (held_at session was) }
{
    if session.is_null() {
        return;
    }
    finish(Box::from_raw(alloc, session as *mut Session))
}
