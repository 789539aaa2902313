//! A client with the bytes that are to be read of it.

ghost use Rattle.std.specs.Prelude.{◌≡◌, Some, None, IfErr, OnOk};
ghost use Rattle.turn_client_proto.specs.Client.{state_of};
ghost use Rattle.turn_c_calls.specs.Abandon.{AbandonRequestEnds, AbandonRequestLacks};
ghost use Rattle.turn_c_calls.specs.Arms.{BareEnds, BareLacks, RequestEnds, RequestLacks};
ghost use Rattle.turn_c_calls.specs.Head.{HeadRequestEnds, HeadRequestLacks};
ghost use Rattle.turn_c_calls.specs.Look.{LacksSight, Looks, sight};
ghost use Rattle.turn_c_calls.specs.Request.{Bare, Written, flow_of, kind_in, kind_of};
ghost use Rattle.turn_c_calls.specs.declared.request.Kind.TheVariants as Kind;

use crate::abandon::abandon;
use crate::answer::Answer;
use crate::channel::recv_udp;
use crate::code::NEXT_PERMISSION;
use crate::fault::Fault;
use crate::handle::{handle, handle_bare, look, recv};
use crate::head::send_head;
use crate::next_permission::next_permission;
use crate::request::{Kind, Request, time_of};
use crate::unread::Unread;
use std::alloc::Global;
use std::marker::Model;
use turn_client_proto::client::TurnClient;
use turn_stun::transport::TransportType;

/// A client as C has it, with the bytes that are to be read. Contracts see both.
#[derive(Debug, Drop)]
pub struct Session {
    client: TurnClient,
    relays: TransportType,
    unread: Unread,
}

impl Model for Session {
    ghost use Rattle.std.specs.Prelude.{◌≡◌};
    ghost use Rattle.turn_client_proto.specs.Client.{state_of};
    ghost use Rattle.turn_c_calls.specs.Held.{Held, held};

    ghost Value = { Held };

    ghost view = { λ s. held (state_of s.client) s.unread };

    // What its allocations relay over, which no call changes.
    ghost invariant = { λ s. (state_of s.client).config.allocation_transport ≡ s.relays };
}

impl Session {
    ghost use Rattle.std.specs.Prelude.{◌≡◌, []};
    ghost use Rattle.turn_client_proto.specs.Client.{state_of};
    ghost use Rattle.turn_c_calls.specs.Abandon.{AbandonSteps};
    ghost use Rattle.turn_c_calls.specs.Head.{HeadSteps};
    ghost use Rattle.turn_c_calls.specs.Held.{held};
    ghost use Rattle.turn_c_calls.specs.Look.{look_answer, sight};
    ghost use Rattle.turn_c_calls.specs.Step.{BareSteps, Steps};

    /// This client, whose allocations relay over `relays`, with nothing to be read.
    pub(crate) fn new(client: TurnClient, relays: TransportType) -> Session
        requires { (state_of client).config.allocation_transport ≡ relays }
        ensures { result ≡ held (state_of client) [] }
    {
        Session {
            client,
            relays,
            unread: Unread::new(),
        }
    }

    /// Answers a request that writes bytes to the buffer, with its data. It is compiled where it is called, for the kind that
    /// is known there.
    #[inline(always)]
    pub(crate) fn answer(
        &mut self,
        kind: Kind,
        request: &Request,
        bytes: &[u8],
        buffer: &mut [u8],
        answer: &mut Answer,
    )
        requires kind { kind_of request.now.kind ≡ Some kind }
        requires flow { flow_of kind ≡ Written }
        ensures { Steps request.now bytes.now self.old self.new buffer.old buffer.new answer.old answer.new }
    {
        let client = &mut self.client;
        let unread = &mut self.unread;
        match handle_either(
            client,
            self.relays,
            kind,
            request,
            bytes,
            unread,
            buffer,
            answer,
        ) {
            Ok(()) => {}
            Err(fault) => answer.kind = fault.code(),
        }
    }

    /// As [`Session::answer`], of a packet that was received.
    #[inline(always)]
    pub(crate) fn recv(
        &mut self,
        alloc: Global,
        request: &Request,
        bytes: &[u8],
        buffer: &mut [u8],
        answer: &mut Answer,
    )
        requires { kind_of request.now.kind ≡ Some Kind.Recv }
        ensures { Steps request.now bytes.now self.old self.new buffer.old buffer.new answer.old answer.new }
    {
        let client = &mut self.client;
        let unread = &mut self.unread;
        match recv_either(alloc, client, request, bytes, unread, buffer, answer) {
            Ok(()) => {}
            Err(fault) => answer.kind = fault.code(),
        }
    }

    /// As [`Session::answer`], of a request that has to do with no bytes.
    #[inline(always)]
    pub(crate) fn answer_bare(&mut self, kind: Kind, request: &Request, answer: &mut Answer)
        requires kind { kind_of request.now.kind ≡ Some kind }
        requires flow { flow_of kind ≡ Bare }
        ensures { BareSteps request.now self.old self.new answer.old answer.new }
    {
        let client = &mut self.client;
        match handle_bare_either(client, kind, request, answer) {
            Ok(()) => {}
            Err(fault) => answer.kind = fault.code(),
        }
    }

    /// Answers a request that names no call, as [`Session::answer`] does, compiled where it is called.
    #[inline(always)]
    pub(crate) fn refuse(&mut self, request: &Request, answer: &mut Answer)
        requires { kind_in request.now ≡ None }
        ensures { BareSteps request.now self.old self.new answer.old answer.new }
    {
        match time_of(request.time) {
            Some(_now) => answer.kind = Fault::Call.code(),
            None => answer.kind = Fault::Time.code(),
        }
    }

    /// Answers a request for the head of a packet that carries so many bytes.
    pub fn send_head(
        &mut self,
        request: &Request,
        len: usize,
        buffer: &mut [u8],
        answer: &mut Answer,
    )
        ensures { HeadSteps request.now len self.old self.new buffer.old buffer.new answer.old answer.new }
    {
        let client = &mut self.client;
        match send_head_either(client, self.relays, request, len, buffer, answer) {
            Ok(()) => {}
            Err(fault) => answer.kind = fault.code(),
        }
    }

    /// Answers a request that gives the client up.
    pub fn abandon(&mut self, request: &Request, buffer: &mut [u8], answer: &mut Answer)
        ensures { AbandonSteps request.now self.old self.new buffer.old buffer.new answer.old answer.new }
    {
        let client = &mut self.client;
        let unread = &mut self.unread;
        match abandon_either(client, request, unread, buffer, answer) {
            Ok(()) => {}
            Err(fault) => answer.kind = fault.code(),
        }
    }

    /// Answers a request that only looks at the client.
    #[tactic(auto, using(crate::proofs::LookLemmas::looked_so, crate::proofs::LookLemmas::looked_not))]
    pub fn look(&self, request: &Request, answer: &mut Answer)
        ensures { answer.new ≡ look_answer (sight request.now self.now.client) answer.old }
    {
        match look_at(&self.client, request, answer) {
            Ok(()) => {}
            Err(fault) => answer.kind = fault.code(),
        }
    }
}

/// As [`handle`], for a client over UDP and one over TCP apart: what the calls of either return is not copied into one type for
/// both.
#[inline(always)]
fn handle_either(
    client: &mut TurnClient,
    relays: TransportType,
    kind: Kind,
    request: &Request,
    bytes: &[u8],
    unread: &mut Unread,
    buffer: &mut [u8],
    answer: &mut Answer,
) -> Result<(), Fault>
    requires relays { (state_of client.old).config.allocation_transport ≡ relays }
    requires kind { kind_of request.now.kind ≡ Some kind }
    requires flow { flow_of kind ≡ Written }
    ensures ok { OnOk result (RequestEnds request.now bytes.now (state_of client.old) (state_of client.new)
        unread.old unread.new buffer.old buffer.new answer.old answer.new) }
    ensures err { IfErr result (λ fault. RequestLacks request.now fault bytes.now (state_of client.old) (state_of client.new)
        unread.old unread.new buffer.old buffer.new answer.old answer.new) }
{
    match client {
        TurnClient::Udp(client) => {
            handle(client, relays, kind, request, bytes, unread, buffer, answer)
        }
        TurnClient::Tcp(client) => {
            handle(client, relays, kind, request, bytes, unread, buffer, answer)
        }
    }
}

/// As [`recv`], for a client over UDP and one over TCP apart.
#[inline(always)]
fn recv_either(
    alloc: Global,
    client: &mut TurnClient,
    request: &Request,
    bytes: &[u8],
    unread: &mut Unread,
    buffer: &mut [u8],
    answer: &mut Answer,
) -> Result<(), Fault>
    requires { kind_of request.now.kind ≡ Some Kind.Recv }
    ensures ok { OnOk result (RequestEnds request.now bytes.now (state_of client.old) (state_of client.new)
        unread.old unread.new buffer.old buffer.new answer.old answer.new) }
    ensures err { IfErr result (λ fault. RequestLacks request.now fault bytes.now (state_of client.old) (state_of client.new)
        unread.old unread.new buffer.old buffer.new answer.old answer.new) }
{
    match client {
        TurnClient::Udp(client) => recv_udp(alloc, client, request, bytes, unread, buffer, answer),
        TurnClient::Tcp(client) => recv(alloc, client, request, bytes, unread, buffer, answer),
    }
}

/// As [`handle_bare`], for a client over UDP and one over TCP apart.
#[inline(always)]
fn handle_bare_either(
    client: &mut TurnClient,
    kind: Kind,
    request: &Request,
    answer: &mut Answer,
) -> Result<(), Fault>
    requires kind { kind_of request.now.kind ≡ Some kind }
    requires flow { flow_of kind ≡ Bare }
    ensures ok { OnOk result (BareEnds request.now (state_of client.old) (state_of client.new) answer.old answer.new) }
    ensures err { IfErr result (λ fault. BareLacks request.now fault (state_of client.old) (state_of client.new) answer.old answer.new) }
{
    match client {
        TurnClient::Udp(client) => handle_bare(client, kind, request, answer),
        TurnClient::Tcp(client) => handle_bare(client, kind, request, answer),
    }
}

/// As [`send_head`], for a client over UDP and one over TCP apart.
fn send_head_either(
    client: &mut TurnClient,
    relays: TransportType,
    request: &Request,
    len: usize,
    buffer: &mut [u8],
    answer: &mut Answer,
) -> Result<(), Fault>
    requires { (state_of client.old).config.allocation_transport ≡ relays }
    ensures ok { OnOk result (HeadRequestEnds request.now len (state_of client.old) (state_of client.new)
        buffer.old buffer.new answer.old answer.new) }
    ensures err { IfErr result (λ fault. HeadRequestLacks request.now fault len (state_of client.old) (state_of client.new)
        buffer.old buffer.new answer.old answer.new) }
{
    match client {
        TurnClient::Udp(client) => send_head(client, relays, request, len, buffer, answer),
        TurnClient::Tcp(client) => send_head(client, relays, request, len, buffer, answer),
    }
}

/// As [`abandon`], for a client over UDP and one over TCP apart.
fn abandon_either(
    client: &mut TurnClient,
    request: &Request,
    unread: &mut Unread,
    buffer: &mut [u8],
    answer: &mut Answer,
) -> Result<(), Fault>
    ensures ok { OnOk result (AbandonRequestEnds request.now (state_of client.old) (state_of client.new)
        unread.old unread.new buffer.old buffer.new answer.old answer.new) }
    ensures err { IfErr result (λ fault. AbandonRequestLacks request.now fault (state_of client.old) (state_of client.new)
        unread.old unread.new buffer.old buffer.new answer.old answer.new) }
{
    match client {
        TurnClient::Udp(client) => abandon(client, request, unread, buffer, answer),
        TurnClient::Tcp(client) => abandon(client, request, unread, buffer, answer),
    }
}

/// Answers a request that only looks at the client, whichever it is.
fn look_at(client: &TurnClient, request: &Request, answer: &mut Answer) -> Result<(), Fault>
    ensures ok { OnOk result (Looks (sight request.now (state_of client.now)) answer.old answer.new) }
    ensures err { IfErr result (λ fault. LacksSight (sight request.now (state_of client.now)) fault answer.old answer.new) }
{
    if request.kind == NEXT_PERMISSION {
        return next_permission(client, request, answer);
    }
    look(client, request, answer)
}
