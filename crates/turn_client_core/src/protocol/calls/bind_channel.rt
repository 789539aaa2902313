//! Channels (RFC 8656, section 12).

ghost use Rattle.std.specs.List.{list_any};
ghost use Rattle.std.specs.Prelude.{◌≡◌, ◌&&◌, false, nat_le, nat_lt, true, IsSome, OnErr, OnOk};
ghost use Rattle.turn_client_api.specs.Answers.{BindsChannel};
ghost use Rattle.turn_client_api.specs.Calls.{bind_channel, bind_channel_step, channel_step, channels_to, is_in_progress, is_number_taken};
ghost use Rattle.turn_client_api.specs.State.{State};

use crate::protocol::TurnClientProtocol;
use std::alloc::AllocError;
use std::net::SocketAddr;
use turn_client_api::{BindChannelError, Grant, Progress, Purpose};
use turn_client_grants::Purposes;
use turn_stun::instant::Instant;
use turn_stun::transport::TransportType;

impl TurnClientProtocol {
    /// Requests a channel to this peer: queues a CHANNEL_BIND (RFC 8656, section 12.1). If no
    /// permission for the peer is active or pending, one is requested with it.
    ///
    /// # Errors
    ///
    /// In this order: `NoAllocation` as for `create_permission`; `AlreadyExists` if the peer has an
    /// active or a pending channel; `ExpiredChannelExists` if it had one that is still reserved, with
    /// the time until which the first of these is reserved; `NoAllocation` if the client has ended;
    /// `AlreadyExists` if all channel numbers are taken; `OutOfMemory`. Nothing else changes then.
    pub fn bind_channel(
        &mut self,
        transport: TransportType,
        peer_addr: SocketAddr,
        now: Instant,
    ) -> Result<(), BindChannelError>
        ensures step { BindsChannel result self.old self.new (bind_channel_step transport peer_addr now self.old) }
    {
        if !self.has_usable_allocation(transport, peer_addr.ip(), now) {
            return Err(BindChannelError::NoAllocation);
        }
        self.ask_channel(peer_addr, now)
    }

    /// The same, in an allocation that can be used.
    fn ask_channel(&mut self, peer: SocketAddr, now: Instant) -> Result<(), BindChannelError>
        ensures step { BindsChannel result self.old self.new (channel_step peer now self.old) }
    {
        if self.ledger.table().has_channel(peer) {
            return Err(BindChannelError::AlreadyExists);
        }
        if let Some(until) = self.ledger.table().reserved_until(peer, now) {
            return Err(BindChannelError::ExpiredChannelExists(until));
        }
        if !self.is_allocated() {
            return Err(BindChannelError::NoAllocation);
        }
        let Some(number) = self.ledger.table().free_number() else {
            return Err(BindChannelError::AlreadyExists);
        };
        match self.ask_number(number, peer, now) {
            Ok(()) => Ok(()),
            Err(_) => Err(BindChannelError::OutOfMemory),
        }
    }

    /// Requests the channel with this number, and a permission if none is active or pending.
    ///
    /// # Errors
    ///
    /// `AllocError` if memory allocation fails. Nothing changes then.
    fn ask_number(&mut self, number: u16, peer: SocketAddr, now: Instant) -> Result<(), AllocError>
        requires held { IsSome self.old.held }
        requires numbered { (nat_le 0x4000 number && nat_lt number 0x5000) ≡ true }
        requires free { is_number_taken number self.old ≡ false }
        requires new { list_any is_in_progress (channels_to peer self.old) ≡ false }
        ensures ok { OnOk result (self.new ≡ bind_channel number peer now self.old) }
        ensures err { OnErr result (self.new ≡ self.old) }
    {
        let channel = Purpose::ForChannel(number, peer);
        let grant = Grant::Channel(number, peer, Progress::Pending(true));
        if self.ledger.table().permission_state(peer.ip()).is_some() {
            return self.ask(&channel, &Purposes::one(channel), &[grant], now);
        }
        let permission = Grant::Permission(peer.ip(), Progress::Pending(true));
        let purposes = Purposes::two(channel, Purpose::ForPermission(peer.ip()));
        self.ask(&channel, &purposes, &[grant, permission], now)
    }
}
