//! Servers that name another one to be used instead (RFC 8489, section 10).

ghost use Rattle.std.specs.Prelude.{◌≡◌, ◌++◌, ◌∷◌, [], OnErr, OnOk};
ghost use Rattle.turn_relay_tries.specs.Redirects.{after_redirect, is_followed, was_asked};

use std::alloc::{AllocError, Global};
use std::net::SocketAddr;

/// How often a relay still goes where a server sends it. It asks no server twice, so that two that name each other are no circle.
#[derive(Debug, Drop)]
pub struct Redirects {
    /// How often it still does.
    pub left: u32,
    /// The servers that were asked.
    pub asked: Vec<SocketAddr>,
}

impl Redirects {
    /// A relay that goes where a server sends it at most this many times.
    pub fn new(left: u32, alloc: Global) -> Redirects
        ensures left { result.left ≡ left }
        ensures asked { result.asked.items ≡ [] }
    {
        Redirects {
            left,
            asked: Vec::new(alloc),
        }
    }

    /// The server at this address is asked.
    ///
    /// # Errors
    ///
    /// If memory allocation fails. Nothing changes then.
    pub fn ask(&mut self, server: SocketAddr) -> Result<(), AllocError>
        ensures ok { OnOk result (self.new.asked.items ≡ self.old.asked.items ++ server ∷ []) }
        ensures err { OnErr result (self.new.asked.items ≡ self.old.asked.items) }
        ensures left { self.new.left ≡ self.old.left }
    {
        self.asked.reserve(1)?;
        self.asked.push_reserved(server);
        Ok(())
    }

    /// A server names this one. Returns whether it is asked: it was not asked before, and the relay still goes where it is sent.
    pub fn follow(&mut self, to: SocketAddr) -> bool
        ensures followed { result ≡ is_followed to self.old.left self.old.asked.items }
        ensures left { self.new.left ≡ after_redirect to self.old.left self.old.asked.items }
        ensures asked { self.new.asked.items ≡ self.old.asked.items }
    {
        if self.left == 0 || self.was_asked(to) {
            return false;
        }
        self.left -= 1;
        true
    }

    /// Whether this server was asked.
    fn was_asked(&self, server: SocketAddr) -> bool
        ensures { result ≡ was_asked server self.now.asked.items }
    {
        self.asked.iter().any(|asked| *asked == server)
    }
}
