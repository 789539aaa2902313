//! What a success response to an ALLOCATE grants (RFC 8656, section 7.3).

ghost use Rattle.std.specs.Prelude.{◌≡◌, [], OnErr, OnOk};
ghost use Rattle.turn_client_api.specs.Effect.{allocate_granted, transaction_ended, phase_with};
ghost use Rattle.turn_client_core.specs.Allocated.{addresses_allocated};
ghost use Rattle.turn_stun.specs.Message.{id_of};

use crate::allocated::taken_addresses;
use crate::protocol::TurnClientProtocol;
use crate::reply::lifetime_in;
use std::alloc::AllocError;
use std::net::SocketAddr;
use turn_client_api::Phase;
use turn_stun::instant::Instant;
use turn_stun::message::Message;

impl TurnClientProtocol {
    /// Grants what the signed success response of the server allocates: the first address of each
    /// requested family. Without a lifetime, or with no address, the client ends. The request is no
    /// longer outstanding.
    ///
    /// # Errors
    ///
    /// `AllocError` if memory allocation fails. Nothing changes then.
    pub(crate) fn allocate_granted(
        &mut self,
        message: &Message<'_>,
        now: Instant,
    ) -> Result<(), AllocError>
        requires phase { self.old.phase ≡ Phase.Authenticating }
        requires before { self.old.grants ≡ [] }
        ensures ok { OnOk result (self.new ≡ allocate_granted message.now now (transaction_ended (id_of message.now) self.old)) }
        ensures err { OnErr result (self.new ≡ self.old) }
    {
        let Some(lifetime) = lifetime_in(message) else {
            return self.fail_with(message);
        };
        self.allocated(lifetime, message, now)
    }

    /// Grants, for so many seconds, the addresses in the response of the server.
    ///
    /// # Errors
    ///
    /// `AllocError` if memory allocation fails. Nothing changes then.
    fn allocated(
        &mut self,
        lifetime: u32,
        message: &Message<'_>,
        now: Instant,
    ) -> Result<(), AllocError>
        requires phase { self.old.phase ≡ Phase.Authenticating }
        requires before { self.old.grants ≡ [] }
        ensures ok { OnOk result (self.new ≡ addresses_allocated lifetime message.now now (transaction_ended (id_of message.now) self.old)) }
        ensures err { OnErr result (self.new ≡ self.old) }
    {
        let families = self.families.as_slice();
        let addresses = taken_addresses(message, families, self.alloc)?;
        self.ledger.reserve(addresses.len(), 0, families.len(), 0)?;
        self.ledger
            .allocated(lifetime, addresses.as_slice(), families, now);
        // As behind each other reply, an idle client holds no room for requests.
        self.ledger.give_back();
        self.outbox.end(message.transaction_id());
        self.phase = phase_with(addresses.as_slice());
        self.families.clear();
        Ok(())
    }
}

/// The phase of a client to which these addresses are granted.
fn phase_with(addresses: &[SocketAddr]) -> Phase
    ensures { result ≡ phase_with addresses.now }
{
    match addresses {
        [] => Phase::Closed,
        [_, ..] => Phase::Allocated,
    }
}
