//! The contents of a Data indication (RFC 8656, sections 11.4 and 11.6).

ghost use Rattle.std.specs.Prelude.{◌≡◌, ◌≤◌, ◌||◌, length, drop, false, fold, is_some, None, option_and_then, true, IfNone, IfSome};
ghost use Rattle.std.specs.List.{list_any};
ghost use Rattle.std.specs.Option.{option_map};
ghost use Rattle.turn_stun.specs.Iterator.{placed};
ghost use Rattle.turn_stun.specs.Message.{HoldsValue, IsWithin, attributes_from, attributes_of, header_fault_of, id_of, length_of};
ghost use Rattle.turn_client_api.specs.Judgement.{has_unknown, is_unknown, last_in, later_of};
ghost use Rattle.turn_client_api.specs.Payloads.{is_message};
ghost use Rattle.turn_client_api.specs.Requests.{icmp_kind};
ghost use Rattle.turn_client_core.specs.Indication.{value_place};
ghost use Rattle.turn_stun.specs.XorAddress.{xor_addr};
ghost use Rattle.turn_types.specs.Icmp.{icmp_of};
ghost use Rattle.turn_types.specs.Send.{data_kind, peer_kind};

use std::net::SocketAddr;
use std::ops::Range;
use turn_stun::attribute::RawAttribute;
use turn_stun::attribute::typed::AttributeFromRaw;
use turn_stun::message::header::MessageHeader;
use turn_stun::transaction::TransactionId;
use turn_types::attribute::{Data, Icmp, XorPeerAddress};

/// The contents of a Data indication. Of several attributes of one type the last one counts.
#[derive(Debug, Drop)]
pub(crate) struct Indication<'a> {
    /// The transaction ID.
    id: TransactionId,
    /// The last XOR-PEER-ADDRESS, with its offset.
    peer: Option<(usize, RawAttribute<'a>)>,
    /// The last DATA, with its offset.
    data: Option<(usize, RawAttribute<'a>)>,
    /// The last ICMP, with its offset.
    icmp: Option<(usize, RawAttribute<'a>)>,
    /// A comprehension-required attribute was found that is neither XOR-PEER-ADDRESS nor DATA.
    pub(crate) has_unknown: bool,
}

impl<'a> Indication<'a> {
    /// The contents of the message in these bytes, or `None` if they are none. The walk that checks the
    /// attributes also reads them, since anyone may send a Data indication with thousands of them.
    ///
    /// If the message has an unknown comprehension-required attribute, the others are not to be used.
    pub(crate) fn of(bytes: &'a [u8]) -> Option<Indication<'a>>
        ensures none { IfNone result (is_message bytes.now ≡ false) }
        ensures message { IfSome result (λ found. is_message bytes.now ≡ true) }
        ensures id { IfSome result (λ found. found.id ≡ id_of bytes.now) }
        ensures unknown { IfSome result (λ found. found.has_unknown ≡ has_unknown bytes.now) }
        ensures peer { IfSome result (λ found. has_unknown bytes.now ≡ false → option_map placed found.peer ≡ last_in peer_kind bytes.now) }
        ensures payload { IfSome result (λ found. has_unknown bytes.now ≡ false → option_map placed found.«data» ≡ last_in data_kind bytes.now) }
        ensures icmp { IfSome result (λ found. has_unknown bytes.now ≡ false → option_map placed found.icmp ≡ last_in icmp_kind bytes.now) }
        ensures within { IfSome result (λ found. IfSome (last_in data_kind bytes.now) (IsWithin 20 (length bytes.now))) }
        ensures value { IfSome result (λ found. IfSome (last_in data_kind bytes.now) (HoldsValue bytes.now)) }
    {
        match MessageHeader::from_bytes(bytes) {
            Ok(header) => Indication::behind(&header, bytes),
            Err(_) => None,
        }
    }

    /// The contents of the message with this header, or `None` if it has another length, or an attribute
    /// runs past its end.
    fn behind(header: &MessageHeader, bytes: &'a [u8]) -> Option<Indication<'a>>
        requires headed { header_fault_of bytes.now ≡ None }
        requires len { header.now.data_length ≡ length_of bytes.now }
        requires id { header.now.transaction_id ≡ id_of bytes.now }
        ensures none { IfNone result (is_message bytes.now ≡ false) }
        ensures message { IfSome result (λ found. is_message bytes.now ≡ true) }
        ensures id { IfSome result (λ found. found.id ≡ id_of bytes.now) }
        ensures peer { IfSome result (λ found. option_map placed found.peer ≡ fold (later_of peer_kind) None (attributes_of bytes.now)) }
        ensures payload { IfSome result (λ found. option_map placed found.«data» ≡ fold (later_of data_kind) None (attributes_of bytes.now)) }
        ensures icmp { IfSome result (λ found. option_map placed found.icmp ≡ fold (later_of icmp_kind) None (attributes_of bytes.now)) }
        ensures unknown { IfSome result (λ found. found.has_unknown ≡ list_any is_unknown (attributes_of bytes.now)) }
    {
        if MessageHeader::LENGTH + usize::from(header.data_length) != bytes.len() {
            return None;
        }
        Indication::read_all(header.transaction_id, bytes)
    }

    /// Reads the attributes after the header, or returns `None` if one runs past the end.
    fn read_all(id: TransactionId, bytes: &'a [u8]) -> Option<Indication<'a>>
        requires { 20 ≤ length bytes.now }
        ensures cut { IfNone result (attributes_from 0 20 (drop 20 bytes.now) ≡ None) }
        ensures whole { IfSome result (λ found. is_some (attributes_from 0 20 (drop 20 bytes.now)) ≡ true) }
        ensures id { IfSome result (λ found. found.id ≡ id) }
        ensures peer { IfSome result (λ found. option_map placed found.peer ≡ fold (later_of peer_kind) None (attributes_of bytes.now)) }
        ensures payload { IfSome result (λ found. option_map placed found.«data» ≡ fold (later_of data_kind) None (attributes_of bytes.now)) }
        ensures icmp { IfSome result (λ found. option_map placed found.icmp ≡ fold (later_of icmp_kind) None (attributes_of bytes.now)) }
        ensures unknown { IfSome result (λ found. found.has_unknown ≡ list_any is_unknown (attributes_of bytes.now)) }
    {
        let mut found = Indication {
            id,
            peer: None,
            data: None,
            icmp: None,
            has_unknown: false,
        };
        let mut offset = MessageHeader::LENGTH;
        let mut rest = &bytes[MessageHeader::LENGTH..];
        while !rest.is_empty() {
            let raw = RawAttribute::from_bytes(rest)?;
            let size = raw.size();
            found.read(offset, raw);
            offset += size;
            rest = &rest[size..];
        }
        Some(found)
    }

    /// The peer address.
    pub(crate) fn peer(&self) -> Option<SocketAddr>
        ensures { result ≡ option_and_then (λ a. xor_addr a.value self.now.id) (option_map placed self.now.peer) }
    {
        let (_, raw) = self.peer?;
        let peer = XorPeerAddress::from_value(raw.value, self.id)?;
        Some(peer.addr())
    }

    /// The ICMP error.
    pub(crate) fn icmp(&self) -> Option<Icmp>
        ensures { result ≡ option_and_then (λ a. icmp_of a.value) (option_map placed self.now.icmp) }
    {
        let (_, raw) = self.icmp?;
        Icmp::from_value(raw.value, self.id)
    }

    /// The range of the data in the bytes of the message.
    pub(crate) fn data_place(&self, bytes: &[u8]) -> Option<Range<usize>>
        requires { IfSome (option_map placed self.now.«data») (IsWithin 20 (length bytes.now)) }
        ensures { result ≡ option_map value_place (option_map placed self.now.«data») }
    {
        let (offset, raw) = self.data?;
        let start = offset + 4;
        Some(start..start + raw.value.len())
    }

    /// Reads the next attribute.
    fn read(&mut self, offset: usize, raw: RawAttribute<'a>)
        ensures peer { option_map placed self.new.peer ≡ later_of peer_kind (option_map placed self.old.peer) (placed (offset, raw.entry)) }
        ensures payload { option_map placed self.new.«data» ≡ later_of data_kind (option_map placed self.old.«data») (placed (offset, raw.entry)) }
        ensures icmp { option_map placed self.new.icmp ≡ later_of icmp_kind (option_map placed self.old.icmp) (placed (offset, raw.entry)) }
        ensures id { self.new.id ≡ self.old.id }
        ensures unknown { self.new.has_unknown ≡ (self.old.has_unknown || is_unknown (placed (offset, raw.entry))) }
    {
        if raw.attribute_type == XorPeerAddress::TYPE {
            self.peer = Some((offset, raw));
        } else if raw.attribute_type == Data::TYPE {
            self.data = Some((offset, raw));
        } else if raw.attribute_type == Icmp::TYPE {
            self.icmp = Some((offset, raw));
        } else if raw.attribute_type.is_comprehension_required() {
            self.has_unknown = true;
        }
    }
}
