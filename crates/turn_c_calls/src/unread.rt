//! Bytes that did not fit into a caller's buffer.

ghost use Rattle.std.specs.Prelude.{◌≡◌};
ghost use Rattle.turn_c_calls.specs.Unread.{kept_bytes, whole};

use crate::buffer::put;
use std::convert::AsSlice;
use std::marker::Model;
use turn_client_api::{Data, TurnPeerData};

/// Bytes that the client returned.
#[derive(Debug, Drop)]
pub enum Kept {
    /// A packet to send.
    Packet(Data),
    /// Data of a peer.
    Given(TurnPeerData<Vec<u8>>),
}

impl AsSlice<u8> for Kept {
    ghost use Rattle.turn_c_calls.specs.Unread.{kept_bytes};

    ghost items = { kept_bytes };

    fn as_slice(&self) -> &[u8] {
        match self {
            Kept::Packet(packet) => packet.as_bytes(),
            Kept::Given(given) => given.data(),
        }
    }
}

/// Bytes that are to be read. Contracts see those that are left.
#[derive(Debug, Drop)]
pub struct Unread {
    kept: Option<Kept>,
    read: usize,
}

impl Model for Unread {
    ghost use Rattle.std.specs.Prelude.{ℕ, ◌≤◌, List, drop, length};
    ghost use Rattle.turn_c_calls.specs.Unread.{whole};

    ghost Value = { List ℕ };

    ghost view = { λ u. drop u.read (whole u.kept) };

    ghost invariant = { λ u. u.read ≤ length (whole u.kept) };
}

/// All the bytes, read or not.
#[inline(always)]
fn whole_of(kept: &Option<Kept>) -> &[u8]
    ensures { result.now ≡ whole kept.now }
{
    match kept {
        None => &[],
        Some(kept) => kept.as_slice(),
    }
}

impl Unread {
    ghost use Rattle.std.specs.Prelude.{◌≡◌, [], length, min, drop, nat_lt};
    ghost use Rattle.turn_c_calls.specs.Buffer.{buffer_filled};
    ghost use Rattle.turn_c_calls.specs.Unread.{kept_bytes};

    /// No bytes.
    pub fn new() -> Unread
        ensures { result ≡ [] }
    {
        Unread {
            kept: None,
            read: 0,
        }
    }

    /// The bytes that are left.
    #[inline(always)]
    fn rest(&self) -> &[u8]
        ensures { result.now ≡ self.now }
    {
        &whole_of(&self.kept)[self.read..]
    }

    /// How many bytes are left.
    #[inline(always)]
    pub fn len(&self) -> usize
        ensures { result ≡ length self.now }
    {
        self.rest().len()
    }

    /// Whether bytes are left.
    pub fn is_left(&self) -> bool
        ensures { result ≡ nat_lt 0 (length self.now) }
    {
        self.len() > 0
    }

    /// Writes as many of the bytes as fit to the start of the buffer, and returns how many these are. The others are left.
    #[inline(always)]
    pub fn read(&mut self, buffer: &mut [u8]) -> usize
        ensures count { result ≡ min (length buffer.old) (length self.old) }
        ensures buffer { buffer.new ≡ buffer_filled self.old buffer.old }
        ensures left { self.new ≡ drop (length buffer.old) self.old }
    {
        let bytes = whole_of(&self.kept);
        let len = bytes.len();
        let count = put(&bytes[self.read..], buffer);
        self.read += count;
        count
    }

    /// Keeps these bytes instead of what was left, and reads the first of them.
    pub fn keep(&mut self, kept: Kept, buffer: &mut [u8]) -> usize
        ensures count { result ≡ min (length buffer.old) (length (kept_bytes kept)) }
        ensures buffer { buffer.new ≡ buffer_filled (kept_bytes kept) buffer.old }
        ensures left { self.new ≡ drop (length buffer.old) (kept_bytes kept) }
    {
        *self = Unread {
            kept: Some(kept),
            read: 0,
        };
        self.read(buffer)
    }
}
