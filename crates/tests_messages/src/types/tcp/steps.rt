//! Calls of a buffer as rows of data.

use crate::fixture::same;
use crate::types::tcp::piece;
use std::process::Abort;
use turn_types::tcp::{TcpCounts, TurnTcpBuffer};

/// A call of a buffer, and its answer.
#[derive(Clone, Copy)]
pub enum Step {
    /// These bytes are received, and whether they complete a frame.
    Piece(&'static [u8], bool),
    /// No frame is buffered.
    PollsNothing,
    /// These bytes are received, to be lent.
    Feed(&'static [u8]),
    /// Whether the buffer is stuck, and whether it lends a frame.
    Front(bool, bool),
    /// The lent frame is dropped.
    Pass,
    /// Whether nothing is buffered.
    IsEmpty(bool),
    /// How many bytes were taken and moved.
    Counts(u64, u64),
}

/// No frame begins with the buffered bytes.
pub static STAYS_BROKEN: [Step; 9] = [
    Step::IsEmpty(false),
    Step::PollsNothing,
    Step::IsEmpty(true),
    Step::Counts(9, 0),
    Step::Piece(&super::CHANNEL_FRAME, false),
    Step::Piece(&super::DATA_INDICATION, false),
    Step::PollsNothing,
    Step::IsEmpty(true),
    Step::Counts(9, 0),
];

/// A ChannelData message is lent, and then follows a byte with which no frame begins.
pub static PASSES: [Step; 9] = [
    Step::Feed(&[0x40, 0x00, 0x00, 0x03, 0x61, 0x62, 0x63, 0x00, 0x80]),
    Step::Front(false, true),
    Step::Pass,
    Step::Front(true, false),
    Step::Pass,
    Step::Counts(9, 1),
    Step::Feed(&super::CHANNEL_FRAME),
    Step::Front(false, false),
    Step::IsEmpty(true),
];

/// The piece is received, and whether it completes a frame.
pub fn takes(rt: &impl Abort, buffer: &mut TurnTcpBuffer, bytes: &[u8], gives: bool) {
    let given = buffer.incoming_tcp(piece(bytes)).expect(rt, "memory");
    same(rt, given.is_some(), gives);
}

/// No frame is buffered.
fn polls_nothing(rt: &impl Abort, buffer: &mut TurnTcpBuffer) {
    let given = buffer.poll_recv().expect(rt, "memory");
    same(rt, given.is_none(), true);
}

fn front(buffer: &TurnTcpBuffer) -> (bool, bool) {
    (buffer.is_stuck(), buffer.front().is_some())
}

/// The step has the expected answer.
pub fn follow(rt: &impl Abort, buffer: &mut TurnTcpBuffer, step: Step) {
    match step {
        Step::Piece(bytes, gives) => takes(rt, buffer, bytes, gives),
        Step::PollsNothing => polls_nothing(rt, buffer),
        Step::Feed(bytes) => buffer.feed(bytes).expect(rt, "memory"),
        Step::Front(stuck, lends) => same(rt, front(buffer), (stuck, lends)),
        Step::Pass => buffer.pass(),
        Step::IsEmpty(want) => same(rt, buffer.is_empty(), want),
        Step::Counts(taken, moved) => same(rt, buffer.counts(), TcpCounts { taken, moved }),
    }
}

/// Each step has the expected answer.
pub fn follow_all(rt: &impl Abort, buffer: &mut TurnTcpBuffer, steps: &[Step]) {
    for step in steps {
        follow(rt, buffer, *step);
    }
}
