//! Requests that a client makes.

ghost use Rattle.std.specs.List.{list_all, list_any, range_with_len};
ghost use Rattle.std.specs.Prelude.{◌≡◌, ◌↔◌, ◌<◌, ◌+◌, ◌%◌, ◌^◌, ◌==◌, false, find, map, not, true, IfOk, IsSome, IsTrue, OnErr, OnOk};
ghost use Rattle.turn_agent.specs.Agent.{is_outstanding};
ghost use Rattle.turn_client_api.specs.Calls.{is_allocated};
ghost use Rattle.turn_client_api.specs.Requests.{fresh_id, is_taken, request_for, sent_from, waits_from};
ghost use Rattle.turn_client_core.specs.Asked.{asks};
ghost use Rattle.turn_client_grants.specs.Table.{are_new, is_numbered};
ghost use Rattle.turn_client_grants.specs.GrantFilter.{purposes_in};

use crate::protocol::TurnClientProtocol;
use std::alloc::AllocError;
use std::net::SocketAddr;
use turn_client_api::{Grant, Phase, Purpose};
use turn_client_grants::{Purposes, connection_count};
use turn_client_requests::request_for;
use turn_stun::data::Data;
use turn_stun::instant::Instant;
use turn_stun::transaction::TransactionId;

impl TurnClientProtocol {
    /// Whether the client is in `Allocated`. Requests can be signed then.
    pub(crate) fn is_allocated(&self) -> bool
        ensures value { result ≡ is_allocated self.now.phase }
        ensures phase { IsTrue result ↔ (self.now.phase ≡ Phase.Allocated) }
        ensures held { IsTrue result → IsSome self.now.held }
    {
        self.phase == Phase::Allocated
    }

    /// Whether an outstanding request, a listed one, or one of the server that is to be answered has
    /// this ID.
    fn is_taken(&self, id: TransactionId) -> bool
        ensures { result ≡ is_taken id self.now }
    {
        self.outbox.agent().is_outstanding(id) || self.ledger.table().is_listed(id)
    }

    /// The first of so many IDs, counted up from this one modulo 2^96, that is not taken.
    fn first_free(&self, first: TransactionId, count: u128) -> Option<TransactionId>
        requires range { first < 2 ^ 96 }
        requires count { count < 2 ^ 96 }
        ensures { result ≡ find (λ id. not (is_taken id self.now)) (map (λ n. (first + n) % 2 ^ 96) (range_with_len 0 count)) }
    {
        let mut id = first;
        for _round in 0..count {
            if !self.is_taken(id) {
                return Some(id);
            }
            id = id.successor();
        }
        None
    }

    /// The ID of the next request: the next one of the seed, or if that is taken, the first after it
    /// that is not. One more ID is tried than are taken, so that one is free.
    pub(crate) fn fresh_id(&self) -> TransactionId
        ensures id { result ≡ fresh_id self.now }
        ensures unsent { is_outstanding result self.now.transactions ≡ false }
        ensures unlisted { list_any (λ l. l.id == result) self.now.listed ≡ false }
    {
        let first = self.outbox.ids().candidate();
        let _bytes = first.to_bytes();
        // What is outstanding or listed is taken (our choice), so that a copy of a reply finds nothing new.
        let taken = self.outbox.agent().outstanding() as u128
            + self.ledger.table().listing_count() as u128
            + self.ledger.table().count() as u128;
        self.first_free(first, taken + 1).unwrap_or(first)
    }

    /// The local address from which a request for this purpose is sent: a CONNECTION_BIND goes over the
    /// connection that it binds (RFC 6062, section 4.3).
    pub(crate) fn sent_from(&self, purpose: &Purpose) -> SocketAddr
        ensures { result ≡ sent_from self.now purpose.now }
    {
        match purpose {
            Purpose::ForBind(local, _, _) => *local,
            _ => self.local_addr(),
        }
    }

    /// From when on a request waits for its response that is made and queued now: from now on, or if
    /// requests are timed from when they are sent, from then on, and until then no time is as late as
    /// the one that is returned.
    pub(crate) fn waits_from(&self, now: Instant) -> Instant
        ensures { result ≡ waits_from now self.now }
    {
        if self.config.requests_timed_from_send() {
            return Instant::from_nanos(u64::MAX);
        }
        now
    }

    /// The signed request with this ID for a purpose.
    ///
    /// # Errors
    ///
    /// `AllocError` if memory allocation fails.
    pub(crate) fn text_for(&self, purpose: &Purpose, id: TransactionId) -> Result<Data, AllocError>
        requires { IsSome self.now.held }
        ensures { IfOk result (λ text. text ≡ request_for self.now purpose.now id) }
    {
        let text = request_for(
            self.alloc,
            &self.auth,
            self.ledger.transport(),
            self.families.as_slice(),
            purpose,
            id,
        )?;
        Ok(text)
    }

    /// Queues a request for the purpose. It is listed for these purposes, and requests these grants,
    /// which come after all others. They differ from each other and from all that exist.
    ///
    /// # Errors
    ///
    /// `AllocError` if memory allocation fails. Nothing changes then.
    pub(crate) fn ask(
        &mut self,
        purpose: &Purpose,
        purposes: &Purposes,
        grants: &[Grant],
        now: Instant,
    ) -> Result<(), AllocError>
        requires held { IsSome self.old.held }
        requires numbered { list_all is_numbered grants.now ≡ true }
        requires new { are_new self.old.grants grants.now ≡ true }
        ensures ok { OnOk result (self.new ≡ asks purpose.now (purposes_in purposes.now) grants.now now self.old) }
        ensures err { OnErr result (self.new ≡ self.old) }
    {
        let id = self.fresh_id();
        let from = self.sent_from(purpose);
        let waits_from = self.waits_from(now);
        let text = self.text_for(purpose, id)?;
        // Keeps the room for the failure events of families that are still requested.
        let closes = connection_count(grants);
        self.ledger
            .reserve(grants.len(), 2, self.families.len(), closes)?;
        self.outbox.ask(id, text, from, waits_from)?;
        self.ledger.ask(id, grants, purposes);
        Ok(())
    }
}
