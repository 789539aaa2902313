//! Data for peers, as the client carries it.

ghost use Rattle.std.specs.Prelude.{◌≡◌, ◌≤◌, ◌^◌, ◌&&◌, not, length};
ghost use Rattle.turn_stun.specs.declared.transport.TransportType.TheVariants.{Udp};
ghost use Rattle.turn_client_api.specs.Answers.{IsSent};
ghost use Rattle.turn_client_api.specs.Calls.{can_send_to};
ghost use Rattle.turn_session_client.specs.Ending.{is_over};
ghost use Rattle.turn_session_client.specs.Sending.{sent_step};
ghost use Rattle.turn_session.specs.Checking.{data_sent, response_delayed, sent_after};

use crate::session::Session;
use std::convert::AsSlice;
use std::fmt::Debug;
use std::net::{IpAddr, SocketAddr};
use turn_client_api::{DelayedMessageOrChannelSend, SendError, TransmitBuild, TurnClientApi};
use turn_stun::instant::Instant;
use turn_stun::transport::TransportType;

impl<C: TurnClientApi> Session<C> {
    /// Whether this peer IP address has an active permission, as the client says. After the end there is none.
    pub fn have_permission(&self, transport: TransportType, to: IpAddr) -> bool
        ensures { result ≡ not (is_over self.now.noted.life.phase) && can_send_to transport to self.now.noted.client }
    {
        self.noted.have_permission(transport, to)
    }

    /// The packet that carries the data to this peer, as the client makes it, which is a use of the peer. Over a stream to the server
    /// responses may be late from now on, for which checks of the path allow.
    ///
    /// # Errors
    ///
    /// Those of the client's call, and `NoAllocation` after the end. Nothing changes then.
    pub fn send_to<T: AsSlice<u8> + Debug + Drop>(
        &mut self,
        transport: TransportType,
        to: SocketAddr,
        data: T,
        now: Instant,
    ) -> Result<Option<TransmitBuild<DelayedMessageOrChannelSend<T>>>, SendError>
        requires now_in_range { now ≤ 2 ^ 62 }
        requires short { self.old.noted.client.config.allocation_transport ≡ Udp → length (T.items «data») ≤ 65504 }
        ensures answer { IsSent result (sent_step transport to (T.items «data») now self.old.noted).0 }
        ensures after { self.new ≡ sent_after to now (sent_step transport to (T.items «data») now self.old.noted) self.old }
    {
        let packet = self.noted.send_to(transport, to, data, now)?;
        self.note_sending(to, now);
        Ok(packet)
    }

    /// Data is sent to this peer, which is a use of it.
    pub(crate) fn note_sending(&mut self, to: SocketAddr, now: Instant)
        ensures { self.new ≡ data_sent to now self.old }
    {
        self.allow_for_data(now);
        self.use_peer(to, now);
    }

    /// Data is sent: over a stream the path allows for it.
    fn allow_for_data(&mut self, now: Instant)
        ensures { self.new ≡ response_delayed now self.old }
    {
        match self.watch.path.transport {
            TransportType::Udp => {}
            TransportType::Tcp => self.watch.path.sent(now),
        }
    }
}
