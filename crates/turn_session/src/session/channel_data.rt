//! Datagrams of channels, of which the client alone makes something.

ghost use Rattle.std.specs.Prelude.{◌≡◌, ◌≤◌, ◌^◌, true, IfOk, IsOk};
ghost use Rattle.turn_client_api.specs.Answers.{HandsBack, outcome_of};
ghost use Rattle.turn_session.specs.Framing.{BytesGive};
ghost use Rattle.turn_session.specs.Receiving.{is_channel_datagram};

use crate::session::Session;
use std::alloc::AllocError;
use std::convert::AsSlice;
use std::fmt::Debug;
use turn_client_api::{TurnClientApi, TurnRecvRet};
use turn_session_client::is_channel_data;
use turn_stun::instant::Instant;
use turn_stun::transport::{Transmit, TransportType};

impl<C: TurnClientApi> Session<C> {
    /// Passes such a datagram to the client: it is no response to a check of the path. What the client does not ignore shows that the
    /// path carries packets. Allocates no memory.
    // Each packet of a channel comes this way: where it is not inlined, the packet is copied.
    #[inline(always)]
    pub(crate) fn recv_channel_datagram<T: AsSlice<u8> + Debug + Drop>(
        &mut self,
        transmit: Transmit<T>,
        now: Instant,
    ) -> Result<TurnRecvRet<T>, AllocError>
        requires now_in_range { now ≤ 2 ^ 62 }
        requires channel { is_channel_datagram transmit.transport (T.items transmit.payload) ≡ true }
        ensures answer { IfOk result (λ answer. BytesGive transmit.transport transmit.from transmit.to (T.items transmit.payload) now
            self.old self.new (outcome_of answer)) }
        ensures hands_back { IfOk result (HandsBack transmit) }
        ensures idle { self.new.idle ≡ self.old.idle }
        ensures free { IsOk result }
    {
        let answer = self.noted.recv_channel_datagram(transmit, now);
        if !matches!(&answer, Ok(TurnRecvRet::Ignored(_))) {
            self.received = Some(now);
        }
        answer
    }
}

/// Whether it is a datagram that begins as ChannelData does (RFC 8656, section 12.4).
#[inline(always)]
pub(crate) fn is_channel_datagram<T: AsSlice<u8> + Debug + Drop>(transmit: &Transmit<T>) -> bool
    ensures { result ≡ is_channel_datagram transmit.now.transport (T.items transmit.now.payload) }
{
    matches!(transmit.transport, TransportType::Udp) && is_channel_data(transmit.payload.as_slice())
}
