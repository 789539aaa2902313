//! Which peers are used.

ghost use Rattle.std.specs.Prelude.{◌≡◌};
ghost use Rattle.turn_session.specs.Uses.{used_in, used_peer};

use crate::session::Session;
use std::alloc::AllocError;
use std::convert::AsSlice;
use std::fmt::Debug;
use std::net::SocketAddr;
use turn_client_api::{TurnClientApi, TurnRecvRet};
use turn_session_book::keys::Key;
use turn_stun::instant::Instant;

impl<C: TurnClientApi> Session<C> {
    /// If data of a peer was received, that is a use of it.
    #[inline(always)]
    pub(crate) fn note_use<T: AsSlice<u8> + Debug + Drop>(
        &mut self,
        received: &Result<TurnRecvRet<T>, AllocError>,
        now: Instant,
    )
        ensures { self.new ≡ used_in received.now now self.old }
    {
        match received {
            Ok(TurnRecvRet::PeerData(data)) => self.use_peer(data.peer, now),
            Ok(TurnRecvRet::Handled) => {}
            Ok(TurnRecvRet::Ignored(_)) => {}
            Ok(TurnRecvRet::PeerIcmp { .. }) => {}
            Err(_) => {}
        }
    }

    /// Data came from this peer, or is sent to it.
    // Each packet comes this way: where it is not inlined, the address is copied.
    #[inline(always)]
    pub(crate) fn use_peer(&mut self, peer: SocketAddr, now: Instant)
        ensures { self.new ≡ used_peer peer now self.old }
    {
        self.idle.used(Key::Channel(peer), now);
    }
}
