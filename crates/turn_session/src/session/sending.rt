//! Packets for the server.

ghost use Rattle.std.specs.Prelude.{◌≡◌, ◌≤◌, ◌^◌, IfOk, OnErr, OnOk};
ghost use Rattle.turn_session.specs.Sending.{EndsUnsent, own_step, transmit_step};

use crate::path_messages::request_bytes;
use crate::session::Session;
use std::alloc::AllocError;
use turn_client_api::TurnClientApi;
use turn_stun::data::Data;
use turn_stun::instant::Instant;
use turn_stun::transport::Transmit;

impl<C: TurnClientApi> Session<C> {
    /// The next packet to send, or none: those of the client as it returns them, and then requests of the path. Call it until it
    /// returns none. After the end there is none. Requests of the client are counted here: send each packet at once.
    ///
    /// # Errors
    ///
    /// If memory allocation fails. If it does for a packet of the client, that has ended, and the session with it. If it does for a
    /// request of the path, that is still to be sent.
    pub fn poll_transmit(&mut self, now: Instant) -> Result<Option<Transmit<Data>>, AllocError>
        requires now_in_range { now ≤ 2 ^ 62 }
        ensures answer { IfOk result (λ packet. packet ≡ (transmit_step now self.old).0) }
        ensures after { OnOk result (self.new ≡ (transmit_step now self.old).1) }
        ensures no_memory { OnErr result (EndsUnsent now self.old self.new) }
    {
        match self.noted.poll_transmit(now) {
            Ok(Some(packet)) => {
                self.count_packet(&packet, now);
                Ok(Some(packet))
            }
            Ok(None) => self.own_packet(),
            Err(error) => Err(error),
        }
    }

    /// The next request of the path, if there is one.
    ///
    /// # Errors
    ///
    /// If memory allocation fails. Nothing changes then.
    fn own_packet(&mut self) -> Result<Option<Transmit<Data>>, AllocError>
        ensures answer { IfOk result (λ packet. packet ≡ (own_step self.old).0) }
        ensures after { OnOk result (self.new ≡ (own_step self.old).1) }
        ensures no_memory { OnErr result (self.new ≡ self.old) }
    {
        if !self.noted.is_open() {
            return Ok(None);
        }
        let Some(request) = self.watch.outbox else {
            return Ok(None);
        };
        let bytes = request_bytes(self.alloc, request)?;
        let _sent = self.watch.take_request();
        let client = self.noted.client();
        Ok(Some(Transmit::new(
            bytes,
            client.transport(),
            client.local_addr(),
            client.remote_addr(),
        )))
    }
}
