//! A Send indication that is built late (RFC 8656, section 11.1).

ghost use Rattle.std.specs.Prelude.{◌≡◌, ◌+◌, ◌^◌, ◌<◌, ◌≤◌, ◌++◌, length, replicate, Some, OnOk};
ghost use Rattle.std.specs.Int.{w16, to_be_bytes};
ghost use Rattle.turn_stun.specs.Message.{IsMessage};
ghost use Rattle.turn_stun.specs.Attributes.{seen_of};
ghost use Rattle.turn_stun.specs.Writer.{attribute_bytes, header_of, with_length};
ghost use Rattle.turn_stun.specs.XorAddress.{plain, xor_addr, xor_value, xor_value_len};
ghost use Rattle.turn_types.specs.Send.{send_type, send_attributes, send_indication};

use crate::address::plain;
use crate::attribute::{Data, XorPeerAddress};
use crate::message::SEND;
use crate::transmit::{DelayedTransmitBuild, framing};
use std::alloc::{AllocError, Global};
use std::convert::AsSlice;
use std::net::SocketAddr;
use turn_stun::attribute::xor_address::XorSocketAddr;
use turn_stun::message::header::{MessageClass, MessageType};
use turn_stun::transaction::TransactionId;

/// A Send indication that is built when it is sent: a peer, and a payload that is borrowed or owned.
#[derive(Debug, Drop)]
pub struct DelayedMessage<T: AsSlice<u8>> {
    peer: XorSocketAddr,
    payload: T,
    id: TransactionId,
    ghost short: { length (T.items payload) ≤ 65504 },
}

impl<T: AsSlice<u8>> DelayedMessage<T> {
    ghost use Rattle.turn_types.specs.Delayed.{delayed_message_bytes, delayed_message_head, delayed_message_payload};

    /// The message that makes a server send the payload to the peer. The payload has at most 65,504
    /// bytes, so that the message has room for it beside an IPv6 address.
    pub fn for_server(peer: SocketAddr, payload: T, id: TransactionId) -> DelayedMessage<T>
        requires { length (T.items payload) ≤ 65504 }
        ensures bytes { delayed_message_bytes result ≡ send_indication peer (T.items payload) id }

        // It is a message of the method SEND, in which the peer and the payload are seen. An ID is
        // always below 2^96.
        ensures message { id < 2 ^ 96 → IsMessage (delayed_message_bytes result) send_type id (send_attributes peer (T.items payload) id) }
        ensures seen { id < 2 ^ 96 → seen_of (delayed_message_bytes result) ≡ send_attributes peer (T.items payload) id }
        ensures peer { id < 2 ^ 96 → xor_addr (xor_value peer id) id ≡ Some (plain peer) }
    {
        DelayedMessage {
            peer: XorSocketAddr::new(plain(peer)),
            payload,
            id,
        }
    }

    /// The payload.
    pub fn payload(&self) -> &[u8]
        ensures { result.now ≡ delayed_message_payload self.now }
    {
        self.payload.as_slice()
    }

    /// How many bytes precede the payload in the message: 36 for a peer of IPv4, 48 for one of IPv6.
    pub fn head_len(&self) -> usize
        ensures { result ≡ length (delayed_message_head self.now) }
    {
        28 + self.peer.value_len()
    }

    /// Writes what precedes the payload in the message: its header, the peer, and the length of the payload.
    pub fn write_head(&self, place: &mut [u8])
        requires { length place.old ≡ length (delayed_message_head self.now) }
        ensures { place.new ≡ delayed_message_head self.now }
    {
        let len = self.payload.as_slice().len();
        let peer_len = self.peer.value_len();
        let (front, behind) = place.split_at_mut(20);
        front.copy_from_slice(&header(self.id, 8 + peer_len + framing::padded_len(len)));
        let (attribute, data) = behind.split_at_mut(4 + peer_len);
        write_peer(attribute, self.peer, self.id);
        data.copy_from_slice(&framing::header(Data::TYPE.value, len));
    }

    /// How many zeros follow the payload: up to three.
    #[tactic(auto, using(std::proofs::lemmas::List::append_assoc))]
    pub fn padding_len(&self) -> usize
        ensures { delayed_message_bytes self.now ≡ delayed_message_head self.now ++ delayed_message_payload self.now ++ replicate result 0 }
    {
        framing::padding_len(self.payload.as_slice().len())
    }
}

/// The header of a Send indication with so many bytes of attributes.
fn header(id: TransactionId, attributes_len: usize) -> [u8; 20]
    requires { attributes_len < 2 ^ 16 }
    ensures { result ≡ with_length attributes_len (header_of send_type id) }
{
    let class = MessageClass::Indication;
    let [a, b] = MessageType {
        method: SEND,
        class,
    }
    .to_number()
    .to_be_bytes();
    let [c, d] = (attributes_len as u16).to_be_bytes();
    let [e, f, g, h, i, j, k, l, m, n, o, p] = id.to_bytes();
    [
        a, b, c, d, 0x21, 0x12, 0xa4, 0x42, e, f, g, h, i, j, k, l, m, n, o, p,
    ]
}

/// Writes XOR-PEER-ADDRESS.
fn write_peer(place: &mut [u8], peer: XorSocketAddr, id: TransactionId)
    requires { length place.old ≡ 4 + xor_value_len peer }
    ensures { place.new ≡ attribute_bytes 0x0012 (xor_value peer id) }
{
    let (front, value) = place.split_at_mut(4);
    front.copy_from_slice(&framing::header(XorPeerAddress::TYPE.value, value.len()));
    peer.encode(id, value);
}

/// Appends XOR-PEER-ADDRESS. On an error `out` may have gained some of it.
fn append_peer(out: &mut Vec<u8>, peer: XorSocketAddr, id: TransactionId) -> Result<(), AllocError>
    ensures { OnOk result (out.new.items ≡ out.old.items ++ attribute_bytes 0x0012 (xor_value peer id)) }
{
    out.extend_from_slice(&framing::header(XorPeerAddress::TYPE.value, peer.value_len()))?;
    peer.append(id, out)
}

impl<T: AsSlice<u8> + Drop> DelayedTransmitBuild for DelayedMessage<T> {
    ghost use Rattle.turn_types.specs.Delayed.{delayed_message_bytes};

    ghost bytes = { delayed_message_bytes };

    fn len(&self) -> usize {
        28 + self.peer.value_len() + framing::padded_len(self.payload.as_slice().len())
    }

    fn build(self, alloc: Global) -> Result<Vec<u8>, AllocError> {
        let len = self.len();
        let mut built = Vec::with_capacity(alloc, len)?;
        built.extend_from_slice(&header(self.id, len - 20))?;
        append_peer(&mut built, self.peer, self.id)?;
        framing::append(&mut built, Data::TYPE.value, self.payload.as_slice())?;
        Ok(built)
    }

    fn write_into(self, place: &mut [u8]) -> usize {
        let len = place.len();
        let (front, behind) = place.split_at_mut(20);
        front.copy_from_slice(&header(self.id, len - 20));
        let (peer, payload) = behind.split_at_mut(4 + self.peer.value_len());
        write_peer(peer, self.peer, self.id);
        framing::write(payload, Data::TYPE.value, self.payload.as_slice());
        len
    }
}
