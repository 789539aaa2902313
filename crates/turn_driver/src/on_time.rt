//! A caller that wakes up when the loop said is on time.

ghost use Rattle.turn_driver.specs.Late.{LoopsAreLate};
ghost use Rattle.turn_driver.specs.OnTime.{LoopsAreOnTime};

/// Whoever runs the loop of this crate is a caller as `turn_client_runs::grants_last_while_the_server_answers` assumes: each
/// call of its iterations is on time, whatever is passed in. The loop is one that passes a packet in or none, polls as
/// [`drive_client`](crate::drive_client) does, begins its next iteration no later than `Rest::Until` said, and at the same
/// time after `Rest::Now`: it tells the client a later time only once it was told to wait. Times are at most 2^62 ns.
///
/// A loop whose iterations begin later than `Rest::Until` said is late by no more than that, if each of them polls.
///
/// It does not speak of calls that carry tasks out: after one the loop goes on at the time of that call.
pub fn loops_are_on_time()
    ensures on_time { LoopsAreOnTime }
    ensures late { LoopsAreLate }
{}
