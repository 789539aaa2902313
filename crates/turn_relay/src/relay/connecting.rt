//! Data connections, which the caller opens and closes (RFC 6062, section 4.3).

ghost use Rattle.std.specs.Prelude.{◌≡◌, ◌≤◌, ◌^◌, Err, OnErr, OnOk};
ghost use Rattle.turn_client_api.specs.declared.error.TcpAllocateError.TheVariants.{NoAllocation};
ghost use Rattle.turn_relay.specs.Calls.{CallsOf, called_of};
ghost use Rattle.turn_relay.specs.Connecting.{TakesData, closed, written};

use crate::relay::Relay;
use std::alloc::AllocError;
use std::net::SocketAddr;
use turn_client_api::{Socket5Tuple, TcpAllocateError, TurnClientApi};
use turn_session::session::Session;
use turn_session_book::tags::Tag;
use turn_stun::instant::Instant;

impl<C: TurnClientApi> Relay<C> {
    /// The caller has opened the data connection for which the session over this socket has asked by these three values, from this
    /// local address, or with `None` could not open it.
    ///
    /// # Errors
    ///
    /// `NoAllocation` if there is no such session, and those of `Session::data_opened` and `data_failed`.
    pub fn data_opened(
        &mut self,
        number: u64,
        id: u32,
        socket: Socket5Tuple,
        peer: SocketAddr,
        local: Result<SocketAddr, Tag>,
        now: Instant,
    ) -> Result<(), TcpAllocateError>
        requires now_in_range { now ≤ 2 ^ 62 }
        ensures { CallsOf number (TakesData id socket peer local now result) (result ≡ Err NoAllocation) self.old self.new }
    {
        let Some(place) = self.lives.place_of(number) else {
            return Err(TcpAllocateError::NoAllocation);
        };
        let live = self.lives.at(place);
        take_socket(live.touch(), id, socket, peer, local, now)
    }

    /// The data connection to this peer, of the session over this socket, was closed, as `Session::data_closed` says.
    ///
    /// # Errors
    ///
    /// If memory allocation fails. Nothing changes then.
    pub fn data_closed(
        &mut self,
        number: u64,
        local: SocketAddr,
        peer: SocketAddr,
        tag: Tag,
        now: Instant,
    ) -> Result<(), AllocError>
        requires now_in_range { now ≤ 2 ^ 62 }
        ensures ok { OnOk result (self.new ≡ called_of number (closed local peer tag) self.old) }
        ensures err { OnErr result (CallsOf number (λ was s. s ≡ was) ⊥ self.old self.new) }
    {
        match self.lives.place_of(number) {
            Some(place) => self
                .lives
                .at(place)
                .touch()
                .data_closed(local, peer, tag, now),
            None => Ok(()),
        }
    }

    /// Bytes of a data connection of the session over this socket have left, as `Session::data_written` says.
    pub fn data_written(&mut self, number: u64, now: Instant)
        ensures { self.new ≡ called_of number (written now) self.old }
    {
        if let Some(place) = self.lives.place_of(number) {
            let live = self.lives.at(place);
            live.touch().data_written(now);
        }
    }
}

/// The data connection was opened from this local address, or could not be opened.
fn take_socket<C: TurnClientApi>(
    session: &mut Session<C>,
    id: u32,
    socket: Socket5Tuple,
    peer: SocketAddr,
    local: Result<SocketAddr, Tag>,
    now: Instant,
) -> Result<(), TcpAllocateError>
    requires now_in_range { now ≤ 2 ^ 62 }
    ensures { TakesData id socket peer local now result session.old session.new }
{
    match local {
        Ok(local) => session.data_opened(id, socket, peer, local, now),
        Err(tag) => session.data_failed(id, socket, peer, tag, now),
    }
}
