//! What the caller reports of its sockets.

ghost use Rattle.std.specs.Prelude.{◌≡◌};
ghost use Rattle.turn_relay.specs.Calls.{called_of, reported};

use crate::relay::Relay;
use crate::report::SocketReport;
use turn_client_api::TurnClientApi;
use turn_session::session::Session;
use turn_stun::instant::Instant;

impl<C: TurnClientApi> Relay<C> {
    /// The caller reports this of the socket with this number. A report of another socket changes nothing.
    pub fn report(&mut self, socket: u64, report: SocketReport, now: Instant)
        ensures { self.new ≡ called_of socket (reported report now) self.old }
    {
        if let Some(place) = self.lives.place_of(socket) {
            let live = self.lives.at(place);
            tell(live.touch(), report, now);
        }
    }
}

/// Reports this to the session.
fn tell<C: TurnClientApi>(session: &mut Session<C>, report: SocketReport, now: Instant)
    ensures { session.new ≡ reported report now session.old }
{
    match report {
        SocketReport::Error(tag) => session.socket_error(tag, now),
        SocketReport::Ended(tag) => session.socket_ended(tag),
        SocketReport::Full => session.full(now),
        SocketReport::Room => session.room(),
        SocketReport::NoRoute(tag) => session.no_route(tag),
        SocketReport::HostMoved(tag) => session.host_moved(tag, now),
    }
}
