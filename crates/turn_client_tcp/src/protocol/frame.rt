//! Whole frames of a client's streams (RFC 8656, section 12.5; RFC 6062, section 4.3).

ghost use Rattle.std.specs.Prelude.{◌≡◌, [], IfOk, OnErr, OnOk, Some, length, true};
ghost use Rattle.turn_client_api.specs.Memory.{bind_takes_memory, waiting_takes_memory};
ghost use Rattle.turn_client_api.specs.Connections.{bind_step};
ghost use Rattle.turn_client_api.specs.Streams.{waiting_frame_step};
ghost use Rattle.turn_client_core.specs.ProtocolRecv.{IsPart, outcome_in};
ghost use Rattle.turn_client_laws.specs.StreamEffects.{with_stream_bound};
ghost use Rattle.turn_client_streams.specs.Front.{IsOfKind};
ghost use Rattle.turn_client_tcp.specs.Origins.{carried_step, carried_takes_memory};
ghost use Rattle.turn_types.specs.Frames.{begins_message, frame_len};

use crate::protocol::TurnClientTcpProtocol;
use std::alloc::AllocError;
use std::net::SocketAddr;
use turn_client_api::{Mode, Phase};
use turn_client_core::TurnProtocolRecv;
use turn_client_streams::FrameKind;
use turn_stun::instant::Instant;
use turn_stun::message::Message;
use turn_types::channel::ChannelData;

/// The connection that a frame came over.
#[derive(Clone, Copy)]
pub(crate) enum FrameOrigin {
    /// The control connection.
    Control,
    /// The data connection from this local address, which waits to be bound.
    Waiting(SocketAddr),
}

impl TurnClientTcpProtocol {
    /// Processes a whole frame: a STUN message, or a ChannelData message, which is data of its channel's peer. A
    /// data connection that waits to be bound has only messages to process (RFC 6062, section 4.3).
    ///
    /// # Errors
    ///
    /// If memory allocation fails for an action that a message requires. Nothing changes then. A
    /// ChannelData message allocates no memory, nor does a message that requires no action, or on a data
    /// connection one that does not keep it.
    // Inlined, so that what it reports, which is large, is not copied on its way out.
    #[inline(always)]
    pub(crate) fn frame(
        &mut self,
        origin: FrameOrigin,
        kind: FrameKind,
        frame: &[u8],
        now: Instant,
    ) -> Result<TurnProtocolRecv, AllocError>
        requires whole { frame_len frame.now ≡ Some (length frame.now) }
        requires kind { IsOfKind kind frame.now }
        requires before { self.old.phase ≡ Phase.Authenticating → self.old.grants ≡ [] }
        ensures answer { IfOk result (λ reported. outcome_in frame.now reported ≡ (carried_step origin frame.now now self.old).0) }
        ensures part { IfOk result (IsPart frame.now self.old self.new) }
        ensures after { OnOk result (self.new ≡ (carried_step origin frame.now now self.old).1) }
        ensures err { OnErr result (self.new ≡ self.old) }
        ensures wanted { OnErr result (carried_takes_memory origin frame.now self.old ≡ true) }
    {
        match origin {
            FrameOrigin::Control => match kind {
                FrameKind::Message => match Message::from_bytes(frame) {
                    Ok(message) => self.control.message_unless_ignored(&message, now),
                    // It begins like a message, and is none: it is dropped.
                    Err(_) => Ok(TurnProtocolRecv::Handled),
                },
                FrameKind::Channel => {
                    let channel = ChannelData::parse(frame).unwrap();
                    Ok(self.control.channel_sent(frame, &channel))
                }
            },
            FrameOrigin::Waiting(local) => match kind {
                FrameKind::Message => self.waiting_message(local, frame, now),
                FrameKind::Channel => Ok(TurnProtocolRecv::Ignored),
            },
        }
    }

    /// Processes a frame of the data connection from this local address that begins like a STUN message.
    ///
    /// # Errors
    ///
    /// If memory allocation fails. Nothing changes then.
    fn waiting_message(
        &mut self,
        local: SocketAddr,
        frame: &[u8],
        now: Instant,
    ) -> Result<TurnProtocolRecv, AllocError>
        requires { begins_message frame.now ≡ true }
        ensures answer { IfOk result (λ reported. outcome_in frame.now reported ≡ (waiting_frame_step local frame.now now self.old).0) }
        ensures part { IfOk result (IsPart frame.now self.old self.new) }
        ensures after { OnOk result (self.new ≡ (waiting_frame_step local frame.now now self.old).1) }
        ensures err { OnErr result (self.new ≡ self.old) }
        ensures wanted { OnErr result (waiting_takes_memory local frame.now self.old ≡ true) }
    {
        match Message::from_bytes(frame) {
            Ok(message) => {
                // `Handled` whatever its effect (our choice): the bytes were those of the connection.
                self.bind_step(local, &message, now)?;
                Ok(TurnProtocolRecv::Handled)
            }
            Err(_) => Ok(TurnProtocolRecv::Handled),
        }
    }

    /// Processes a message on the data connection from this local address: the server may bind it, and then
    /// what follows on its stream is data of the peer.
    ///
    /// # Errors
    ///
    /// If memory allocation fails. Nothing changes then.
    fn bind_step(
        &mut self,
        local: SocketAddr,
        message: &Message<'_>,
        now: Instant,
    ) -> Result<(), AllocError>
        ensures ok { OnOk result (self.new ≡ bind_step local message.now now self.old) }
        ensures err { OnErr result (self.new ≡ self.old) }
        ensures wanted { OnErr result (bind_takes_memory local message.now self.old ≡ true) }
    {
        let peer = self.control.bind_step(local, message, now)?;
        self.bind_stream(local, &peer);
        Ok(())
    }

    /// If this peer was bound, the bytes of the stream at this local address are its data from now on, also
    /// the buffered ones.
    fn bind_stream(&mut self, local: SocketAddr, peer: &Option<SocketAddr>)
        ensures { self.new ≡ with_stream_bound local peer.now self.old }
    {
        if let Some(peer) = peer {
            self.streams.set_mode(local, Mode::Bound(*peer));
        }
    }
}
