//! The end of a stream, which an empty piece reports.

ghost use Rattle.std.specs.Prelude.{◌≡◌, ℕ, [], option_map};
ghost use Rattle.turn_client_api.specs.Answers.{HandsBack, outcome_of};
ghost use Rattle.turn_client_api.specs.Streams.{stream_at};
ghost use Rattle.turn_client_tcp.specs.StreamSteps.{piece_at};

use crate::protocol::TurnClientTcpProtocol;
use std::convert::AsSlice;
use std::fmt::Debug;
use std::net::SocketAddr;
use turn_client_api::TurnRecvRet;
use turn_stun::transport::Transmit;

impl TurnClientTcpProtocol {
    /// Ends the stream at the local address of the empty piece, if there is one, and removes its
    /// connection.
    pub(super) fn stream_end<T: AsSlice<u8> + Debug + Drop>(
        &mut self,
        transmit: Transmit<T>,
    ) -> TurnRecvRet<T>
        ensures answer { (now : ℕ) → outcome_of result ≡ (piece_at transmit.to [] now self.old).0 }
        ensures hands_back { HandsBack transmit result }
        ensures after { (now : ℕ) → self.new ≡ (piece_at transmit.to [] now self.old).1 }
    {
        let Some(local) = self.stream_local(transmit.to) else {
            return TurnRecvRet::Ignored(transmit);
        };
        // The caller is to close its end of the connection before all others that it is to close.
        self.control.connection_gone(local);
        self.streams.remove(local);
        TurnRecvRet::Handled
    }

    /// The local address of the stream at this local address, if there is one.
    fn stream_local(&self, local: SocketAddr) -> Option<SocketAddr>
        ensures { result ≡ option_map (λ stream. stream.local) (stream_at local self.now) }
    {
        match self.streams.get(local) {
            Some(stream) => Some(stream.local()),
            None => None,
        }
    }
}
