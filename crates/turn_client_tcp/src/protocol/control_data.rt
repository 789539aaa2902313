//! ChannelData messages of the control connection, read where they are buffered (RFC 8656, sections 12.5 and
//! 12.6).

ghost use Rattle.std.specs.Prelude.{◌≡◌, false, length, IfOk, IfSome, OnErr, OnOk, Some, option_map};
ghost use Rattle.turn_client_tcp.specs.ControlData.{IsControlFront, channel_data, control_data, control_ended, data_passed, data_from};
ghost use Rattle.turn_client_tcp.specs.StreamSteps.{received_payload};
ghost use Rattle.turn_client_tcp.specs.Wanted.{HasBytes};
ghost use Rattle.turn_types.specs.Frames.{begins_message, frame_len};

use crate::protocol::TurnClientTcpProtocol;
use crate::received::{Received, copy_of};
use std::alloc::AllocError;
use std::net::SocketAddr;
use turn_client_streams::{FrameKind, Front};
use turn_types::channel::ChannelData;

/// A ChannelData message of an active channel, at the front of the control stream.
pub(super) struct ChannelFrame<'a> {
    /// The peer of the channel.
    pub(super) peer: &'a SocketAddr,
    /// What the peer sent.
    pub(super) payload: &'a [u8],
    /// How many bytes the frame has, with its padding.
    pub(super) len: usize,
}

impl TurnClientTcpProtocol {
    /// Returns the data of the first frame of the control stream, if that is a ChannelData message of an
    /// active channel. It is copied from where the frame is buffered, and the frame is dropped. If there is
    /// no such frame, nothing changes.
    ///
    /// # Errors
    ///
    /// If memory allocation for the data fails, which are not empty. The control stream is broken then,
    /// and the client has ended.
    pub(crate) fn take_control_data(&mut self) -> Result<Option<Received>, AllocError>
        ensures answer { IfOk result (λ given. option_map received_payload given ≡ control_data self.old) }
        ensures after { OnOk result (self.new ≡ data_passed self.old) }
        ensures no_memory { OnErr result (self.new ≡ control_ended self.old) }
        ensures wanted { OnErr result (HasBytes (control_data self.old)) }
    {
        let Some(frame) = self.channel_frame() else {
            return Ok(None);
        };
        let ChannelFrame { peer, payload, len } = frame;
        let peer = *peer;
        let transport = self.control.allocation_transport();
        match copy_of(self.alloc, payload) {
            Ok(bytes) => {
                self.streams.pass_control(len);
                Ok(Some(Received {
                    transport,
                    peer,
                    bytes,
                }))
            }
            Err(refusal) => {
                self.end_control();
                Err(refusal)
            }
        }
    }

    /// The first frame of the control stream, if it is such a message.
    pub(super) fn channel_frame(&self) -> Option<ChannelFrame<'_>>
        ensures payload { option_map (λ frame. data_from self.now frame.peer.now frame.payload.now) result ≡ control_data self.now }
        ensures front { IfSome result (λ frame. IsControlFront frame.len self.now) }
    {
        let Some(stream) = self.streams.control() else {
            return None;
        };
        match stream.front() {
            Front::Frame(FrameKind::Channel, frame) => self.channel_in(frame),
            Front::Frame(FrameKind::Message, _) | Front::Partial | Front::Stuck => None,
        }
    }

    /// The data in this whole ChannelData message, if its channel is active.
    fn channel_in<'a>(&'a self, frame: &'a [u8]) -> Option<ChannelFrame<'a>>
        requires whole { frame_len frame.now ≡ Some (length frame.now) }
        requires channel { begins_message frame.now ≡ false }
        ensures payload { option_map (λ found. data_from self.now found.peer.now found.payload.now) result ≡ channel_data self.now frame.now }
        ensures len { IfSome result (λ found. found.len ≡ length frame.now) }
    {
        let channel = ChannelData::parse(frame).unwrap();
        let Some(peer) = self.control.channel_peer(channel.id()) else {
            return None;
        };
        Some(ChannelFrame {
            peer,
            payload: channel.data(),
            len: frame.len(),
        })
    }

    /// Breaks the control stream and ends the client: memory allocation for the stream failed.
    fn end_control(&mut self)
        ensures { self.new ≡ control_ended self.old }
    {
        if let Some(stream) = self.streams.control() {
            let local = stream.local();
            self.end_at(local);
        }
    }
}
