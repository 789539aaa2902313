//! The settings of a relay.

ghost use Rattle.turn_relay.specs.Settings.{AreDefault, AreFor};

use std::time::Duration;
use turn_relay_course::reopen::Reopen;
use turn_relay_tries::backoff::Backoff;
use turn_session::constants::LEAVE_WAIT;
use turn_session::settings::SessionSettings;
use turn_stun::transport::TransportType;

/// The settings of a relay.
#[derive(Clone, Copy, Debug, PartialEq, Eq)]
pub struct RelaySettings {
    /// Whether it is opened again. If it is, its sessions ask whether the server knows the allocation, after an error of the socket
    /// or a check without a response.
    pub reopen: Reopen,
    /// How long lies between its tries.
    pub backoff: Backoff,
    /// How often one try goes where a server sends it.
    pub redirects: u32,
    /// How often the path to the server is checked, or `None` for never over UDP, and every 15 s over a stream.
    pub probe: Option<Duration>,
    /// A peer without data for so long, in and out, is released, or `None` for never.
    pub idle: Option<Duration>,
    /// How long a session takes at most to leave.
    pub leave_wait: Duration,
}

impl RelaySettings {
    /// The settings of a relay that has one life, or comes back: waits of 0.5 to 4 s, three redirects, no peer is idle, and leaving
    /// takes 2 s at most.
    pub fn new(reopen: Reopen) -> RelaySettings
        ensures { AreDefault reopen result }
    {
        RelaySettings {
            reopen,
            backoff: Backoff::new(),
            redirects: 3,
            probe: None,
            idle: None,
            leave_wait: Duration::from_nanos(LEAVE_WAIT),
        }
    }

    /// The settings of its sessions over this transport to the server.
    pub fn session(self, transport: TransportType) -> SessionSettings
        ensures { AreFor self transport result }
    {
        let usual = SessionSettings::new(transport);
        SessionSettings {
            probe: match self.probe {
                Some(probe) => Some(probe),
                None => usual.probe,
            },
            checks_allocation: self.reopen == Reopen::Always,
            idle: self.idle,
            leave_wait: self.leave_wait,
        }
    }
}
