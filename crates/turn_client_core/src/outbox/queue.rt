//! The queued packets.

ghost use Rattle.std.specs.Prelude.{◌≡◌, ◌≤◌, ◌<◌, ◌+◌, ◌-◌, ◌++◌, ◌∷◌, [], drop, filter, filter_map, length, not, slice_get, IfSome, OnOk};
ghost use Rattle.std.specs.List.{list_any, position};
ghost use Rattle.std.specs.VecDeque.{deque_len};
ghost use Rattle.turn_client_api.specs.Transmit.{reply_in, without_first_reply};

use std::alloc::{AllocError, Global};
use std::collections::VecDeque;
use std::marker::Model;
use turn_client_api::Queued;
use turn_stun::data::Data;
use turn_stun::transport::Transmit;

/// The packets that are queued for the server, in their order: requests, and replies to requests of the
/// server.
#[derive(Debug, Drop)]
pub(crate) struct Queue {
    packets: VecDeque<Queued>,
    // How many of them are replies. It is kept, since `poll` reads it each time.
    replies: usize,
}

impl Model for Queue {
    ghost use Rattle.std.specs.Prelude.{◌-◌, ◌≡◌};
    ghost use Rattle.std.specs.VecDeque.{deque_capacity, deque_len};
    ghost use Rattle.turn_client_core.specs.Queue.{Packets, reply_count};

    ghost Value = { Packets };

    ghost view = { λ q. record { items = q.packets.items; room = deque_capacity q.packets - deque_len q.packets } };

    ghost invariant = { λ q. q.replies ≡ reply_count q.packets.items };
}

impl Queue {
    /// An empty queue. Allocates no memory yet.
    pub(crate) fn new(alloc: Global) -> Queue
        ensures { result.items ≡ [] }
    {
        Queue {
            packets: VecDeque::new(alloc),
            replies: 0,
        }
    }

    /// Reserves room for so many packets.
    ///
    /// # Errors
    ///
    /// `AllocError` if memory allocation fails. Only the room may change then.
    pub(crate) fn reserve(&mut self, packets: usize) -> Result<(), AllocError>
        ensures items { self.new.items ≡ self.old.items }
        ensures room { OnOk result (packets ≤ self.new.room) }
    {
        // The first takes no room for others, which many clients never queue.
        if self.packets.capacity() == 0 {
            self.packets.reserve_exact(packets)
        } else {
            self.packets.reserve(packets)
        }
    }

    /// Queues the packet, as the last one. `reserve` makes room.
    pub(crate) fn push(&mut self, packet: Transmit<Data>, is_request: bool)
        requires { 0 < self.old.room }
        ensures items { self.new.items ≡ self.old.items ++ record { packet = packet; is_request = is_request } ∷ [] }
        ensures room { self.new.room ≡ self.old.room - 1 }
    {
        self.packets
            .push_back_reserved(Queued { packet, is_request });
        if !is_request {
            self.replies += 1;
        }
    }

    /// The packets in their order, for reading.
    pub(crate) fn packets(&self) -> &VecDeque<Queued>
        ensures { result.now.items ≡ self.now.items }
    {
        &self.packets
    }

    /// Whether a reply to the server is queued.
    pub(crate) fn has_reply(&self) -> bool
        ensures { result ≡ list_any (λ q. not q.is_request) self.now.items }
    {
        self.replies > 0
    }

    /// Whether a request is queued.
    pub(crate) fn has_request(&self) -> bool
        ensures { result ≡ list_any (λ q. q.is_request) self.now.items }
    {
        self.replies < self.packets.len()
    }

    /// How many requests are queued.
    pub(crate) fn requests(&self) -> usize
        ensures { result ≡ length (filter (λ q. q.is_request) self.now.items) }
    {
        self.packets.len() - self.replies
    }

    /// Removes all packets.
    pub(crate) fn clear(&mut self)
        ensures { self.new.items ≡ [] }
    {
        self.packets.clear();
        self.replies = 0;
    }

    /// Removes and returns the first packet.
    pub(crate) fn pop_front(&mut self) -> Option<Queued>
        ensures front { result ≡ slice_get self.old.items 0 }
        ensures rest { self.new.items ≡ drop 1 self.old.items }
    {
        let queued = self.packets.pop_front()?;
        if !queued.is_request {
            self.replies -= 1;
        }
        Some(queued)
    }

    /// Removes and returns the first reply.
    pub(crate) fn take_reply(&mut self) -> Option<Transmit<Data>>
        ensures reply { result ≡ slice_get (filter_map reply_in self.old.items) 0 }
        ensures rest { self.new.items ≡ without_first_reply self.old.items }
    {
        if self.replies == 0 {
            return None;
        }
        let place = reply_place(&self.packets)?;
        let reply = self.packets.remove(place).unwrap();
        self.replies -= 1;
        Some(reply.packet)
    }
}

/// The index of the first queued reply.
fn reply_place(queue: &VecDeque<Queued>) -> Option<usize>
    ensures first { result ≡ position (λ q. not q.is_request) queue.now.items }
    ensures within { IfSome result (λ place. place < deque_len queue.now) }
{
    queue.iter().position(|queued| !queued.is_request)
}
