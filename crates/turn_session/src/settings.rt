//! The settings of a session.

ghost use Rattle.std.specs.Prelude.{◌≡◌};
ghost use Rattle.turn_session.specs.Settings.{AreDefault};

use crate::constants::{LEAVE_WAIT, STREAM_PROBE};
use std::time::Duration;
use turn_stun::transport::TransportType;

/// The settings of a session.
#[derive(Clone, Copy, Debug, PartialEq, Eq)]
pub struct SessionSettings {
    /// How often the path to the server is checked, or `None` or no time at all for never.
    pub probe: Option<Duration>,
    /// Whether the server is asked if it still knows the allocation, after an error of the socket or a check without a
    /// response.
    pub checks_allocation: bool,
    /// A peer without data for so long, in and out, is let go, or `None` or no time at all for never. Data, or a request, keeps it
    /// again. It is looked for such peers four times in that time.
    pub idle: Option<Duration>,
    /// How long leaving takes at most.
    pub leave_wait: Duration,
}

impl SessionSettings {
    /// The settings over this transport to the server: over a stream its path is checked every 15 s, no allocation is checked, no
    /// peer is idle, and leaving takes 2 s at most.
    pub fn new(transport: TransportType) -> SessionSettings
        ensures { AreDefault transport result }
    {
        let probe = match transport {
            TransportType::Udp => None,
            TransportType::Tcp => Some(Duration::from_nanos(STREAM_PROBE)),
        };
        SessionSettings {
            probe,
            checks_allocation: false,
            idle: None,
            leave_wait: Duration::from_nanos(LEAVE_WAIT),
        }
    }
}
