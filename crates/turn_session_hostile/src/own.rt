//! The requests of the session's own, which check the path, and what the server answers to them.

use std::alloc::Global;
use turn_hostile_net::fault::Fault;
use turn_hostile_net::message::{Part, Signer, Title, message};
use turn_hostile_net::packet::{Packet, Truth};
use turn_hostile_net::world::{local, server};
use turn_stun::message::Message;
use turn_stun::message::header::MessageClass;
use turn_stun::message::method::Method;
use turn_types::attribute::XorPeerAddress;
use turn_types::message::CREATE_PERMISSION;

/// The method of Binding (RFC 8489, section 18.2).
const BINDING: Method = Method { value: 0x001 };

/// A request that checks the path. It is not signed, and changes nothing.
#[derive(Clone, Copy)]
pub struct OwnRequest {
    /// Its transaction ID.
    id: [u8; 12],
    /// Its method: Binding, or CREATE_PERMISSION without a peer.
    method: Method,
}

/// The request in these bytes, if it checks the path.
pub fn own_request_in(bytes: &[u8]) -> Option<OwnRequest> {
    let message = Message::from_bytes(bytes).ok()?;
    if message.class() != MessageClass::Request {
        return None;
    }
    let method = message.method();
    let is_bare = method == CREATE_PERMISSION && message.attribute::<XorPeerAddress>().is_err();
    if method != BINDING && !is_bare {
        return None;
    }
    let id = message.transaction_id().to_bytes();
    Some(OwnRequest { id, method })
}

impl OwnRequest {
    /// Whether it is a Binding request.
    pub fn is_binding(self) -> bool {
        self.method == BINDING
    }

    /// The response to it, which arrives then: to Binding this port of the client, to the other one an error.
    ///
    /// # Errors
    ///
    /// If memory allocation fails.
    pub fn response(self, alloc: Global, mapped: u16, due: u64) -> Result<Packet, Fault> {
        let (class, part) = if self.is_binding() {
            (MessageClass::Success, Part::Mapped(mapped))
        } else {
            (MessageClass::Error, Part::Error(400))
        };
        let title = Title {
            method: self.method,
            class,
            id: self.id,
        };
        Ok(Packet {
            due,
            from: server(),
            to: local(),
            bytes: message(alloc, title, &[part], Signer::Nobody, &[])?,
            truth: Truth::Nothing,
        })
    }
}

/// What a response answers.
#[derive(Clone, Copy)]
pub struct ResponseTo {
    /// The transaction ID of the request.
    pub id: [u8; 12],
    /// The method of the response.
    pub method: Method,
}

/// What the response in these bytes answers, if they are one.
pub fn response_in(bytes: &[u8]) -> Option<ResponseTo> {
    let message = Message::from_bytes(bytes).ok()?;
    if !message.is_response() {
        return None;
    }
    Some(ResponseTo {
        id: message.transaction_id().to_bytes(),
        method: message.method(),
    })
}
