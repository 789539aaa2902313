//! The addresses of a server, in the order in which they are attempted (RFC 8305, section 4).

ghost use Rattle.std.specs.Prelude.{◌≡◌, [], OnErr, OnOk};
ghost use Rattle.std.specs.List.{list_any};
ghost use Rattle.turn_session_book.specs.Keys.{same_peer};
ghost use Rattle.turn_relay_tries.specs.Addresses.{added, addresses_left, next_address, no_addresses, taken_v4, taken_v6, turn_after, with_address};

use std::alloc::{AllocError, Global};
use std::collections::VecDeque;
use std::marker::Model;
use std::net::SocketAddr;
use turn_types::AddressFamily;

/// The addresses of a server that were not attempted yet: each once, IPv6 and IPv4 by turns, and the family of the first one first.
#[derive(Debug, Drop)]
pub struct Addresses {
    v4: VecDeque<SocketAddr>,
    v6: VecDeque<SocketAddr>,
    /// The family of the next one, if there is one of it. `None` before the first address was added.
    turn: Option<AddressFamily>,
}

impl Model for Addresses {
    ghost use Rattle.turn_relay_tries.specs.AddressesState.{AddressesState};

    ghost Value = { AddressesState };

    ghost view = { λ a. record { v4 = a.v4.items; v6 = a.v6.items; turn = a.turn } };
}

impl Addresses {
    /// No addresses.
    pub fn new(alloc: Global) -> Addresses
        ensures { result ≡ no_addresses }
    {
        Addresses {
            v4: VecDeque::new(alloc),
            v6: VecDeque::new(alloc),
            turn: None,
        }
    }

    /// The server has this address, too. One that is in the list already is not added again.
    ///
    /// # Errors
    ///
    /// If memory allocation fails. Nothing changes then.
    pub fn add(&mut self, address: SocketAddr) -> Result<(), AllocError>
        ensures ok { OnOk result (self.new ≡ added address self.old) }
        ensures err { OnErr result (self.new ≡ self.old) }
    {
        match address {
            SocketAddr::V4(_) => {
                add_once(&mut self.v4, address)?;
                self.turn = turn_after(self.turn, AddressFamily::IPV4);
            }
            SocketAddr::V6(_) => {
                add_once(&mut self.v6, address)?;
                self.turn = turn_after(self.turn, AddressFamily::IPV6);
            }
        }
        Ok(())
    }

    /// How many there are.
    pub fn len(&self) -> usize
        ensures { result ≡ addresses_left self.now }
    {
        self.v4.len().saturating_add(self.v6.len())
    }

    /// Removes all of them.
    pub fn clear(&mut self)
        ensures { self.new ≡ no_addresses }
    {
        self.v4.clear();
        self.v6.clear();
        self.turn = None;
    }

    /// The address that is attempted next: of the other family than the one before it, if there is one left.
    pub fn take_next(&mut self) -> Option<SocketAddr>
        ensures { (result, self.new) ≡ next_address self.old }
    {
        match self.turn {
            Some(AddressFamily::IPV4) => match self.take_v4() {
                Some(address) => Some(address),
                None => self.take_v6(),
            },
            Some(AddressFamily::IPV6) => match self.take_v6() {
                Some(address) => Some(address),
                None => self.take_v4(),
            },
            None => None,
        }
    }

    /// The first IPv4 address. An IPv6 address is to follow.
    fn take_v4(&mut self) -> Option<SocketAddr>
        ensures { (result, self.new) ≡ taken_v4 self.old }
    {
        self.turn = Some(AddressFamily::IPV6);
        self.v4.pop_front()
    }

    /// The first IPv6 address. An IPv4 address is to follow.
    fn take_v6(&mut self) -> Option<SocketAddr>
        ensures { (result, self.new) ≡ taken_v6 self.old }
    {
        self.turn = Some(AddressFamily::IPV4);
        self.v6.pop_front()
    }
}

/// Whose turn it is after an address of this family was added: the first one decides.
fn turn_after(turn: Option<AddressFamily>, family: AddressFamily) -> Option<AddressFamily>
    ensures { result ≡ turn_after family turn }
{
    match turn {
        Some(first) => Some(first),
        None => Some(family),
    }
}

/// Adds this address behind the others, unless it is one of them.
///
/// # Errors
///
/// If memory allocation fails. Nothing changes then.
fn add_once(queue: &mut VecDeque<SocketAddr>, address: SocketAddr) -> Result<(), AllocError>
    ensures ok { OnOk result (queue.new.items ≡ with_address address queue.old.items) }
    ensures err { OnErr result (queue.new.items ≡ queue.old.items) }
{
    if has_address(queue, address) {
        return Ok(());
    }
    queue.reserve(1)?;
    queue.push_back_reserved(address);
    Ok(())
}

/// Whether this address is one of these.
fn has_address(queue: &VecDeque<SocketAddr>, address: SocketAddr) -> bool
    ensures { result ≡ list_any (λ a. same_peer a address) queue.now.items }
{
    queue.iter().any(|other| *other == address)
}
