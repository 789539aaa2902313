//! A caller that polls comes to an end.

ghost use Rattle.turn_driver.specs.Rests.{LoopsComeToRest};

/// Whatever was called before, and whatever packet is passed in: for each time there is a number of polls after which
/// [`drive_client`](crate::drive_client) returns `Rest::Until` or `Rest::Ended`, and so it does with every greater `most`. With
/// a smaller one of 1 or more, some number of iterations at that time does, if nothing is passed in. So no caller polls without
/// end at one time. Times are at most 2^62 ns.
///
/// Assumed is a pause between two requests (`request_cadence` of more than 0), whatever the waits of retransmission are; or else
/// that none of these waits is 0, nor the time after which the path is kept alive. Without both it is false
/// (`turn_client_runs::without_waits_a_client_is_busy_for_ever`).
///
/// What is left to do gets less with each poll: first the bytes in the streams; then, with a pause, a new request is sent, and none
/// after it until the pause is over; then requests time out; then grants expire, and offers are reported; and then
/// retransmissions and replies are sent, events are reported and connections are closed. Without a pause it is, after the
/// streams, requests of which the wait is over; then grants; then grants for which no request is listed; then an indication
/// that keeps the path alive; and then what is queued.
pub fn loops_come_to_rest()
    ensures rest { LoopsComeToRest }
{}
