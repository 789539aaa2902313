//! The words of a call's line (`turn_session_lines`).

use crate::acts::{Act, LastAct};
use std::fmt;
use turn_hostile_net::words::{Address, Ip, transport_word, write_socket};
use turn_hostile_net::world::{local, server};
use turn_session_book::keys::Key;

/// A key, as a line has it.
#[derive(Clone, Copy)]
struct KeyWords(Key);

impl fmt::Display for KeyWords {
    fn fmt<W: fmt::Write>(&self, f: &mut fmt::Formatter<W>) -> fmt::Result {
        match self.0 {
            Key::Permission(ip) => {
                let ip = Ip(ip);
                write!(f, "permission {ip}")
            }
            Key::Channel(peer) => {
                let peer = Address(peer);
                write!(f, "channel {peer}")
            }
            Key::Connect(peer) => {
                let peer = Address(peer);
                write!(f, "connect {peer}")
            }
        }
    }
}

/// The words of the call, without its time.
impl fmt::Display for Act {
    fn fmt<W: fmt::Write>(&self, f: &mut fmt::Formatter<W>) -> fmt::Result {
        match *self {
            Act::Request(key, false) => write_with_key(f, "request", key),
            Act::Request(key, true) => write_with_key(f, "request-for-data", key),
            Act::Keep(key, true) => write_with_key(f, "keep", key),
            Act::Keep(key, false) => write_with_key(f, "release", key),
            Act::Look(key) => write_with_key(f, "grant", key),
            Act::Send(relays, peer, data) => {
                let (relays, peer) = (transport_word(relays), Address(peer));
                write!(f, "send {relays} {peer} {data:016x}")
            }
            Act::Have(relays, ip) => {
                let (relays, ip) = (transport_word(relays), Ip(ip));
                write!(f, "have {relays} {ip}")
            }
            Act::Check => write!(f, "check"),
            Act::Socket(id, peer, end) => write_socket(f, id, peer, end),
            Act::Close(end, peer) => {
                let (end, peer) = (Address(end), Address(peer));
                write!(f, "closed {end} {peer} 104")
            }
            Act::Break(end) => {
                let (server, end) = (Address(server()), Address(end));
                write!(f, "recv tcp {server} {end} -")
            }
            Act::SocketError => write!(f, "error 111"),
            Act::Full => write!(f, "full"),
            Act::Room => write!(f, "room"),
            Act::Last(last) => write_last_act(f, last),
        }
    }
}

fn write_with_key<W: fmt::Write>(f: &mut fmt::Formatter<W>, name: &str, key: Key) -> fmt::Result {
    let key = KeyWords(key);
    write!(f, "{name} {key}")
}

fn write_last_act<W: fmt::Write>(f: &mut fmt::Formatter<W>, last: LastAct) -> fmt::Result {
    match last {
        LastAct::Leave => write!(f, "leave"),
        LastAct::Abandon => write!(f, "abandon"),
        LastAct::SocketEnded => write!(f, "ended -"),
        LastAct::Noise => {
            let (server, local) = (Address(server()), Address(local()));
            write!(f, "recv tcp {server} {local} ffffffff")
        }
        LastAct::NoRoute => write!(f, "no-route 101"),
        LastAct::HostMoved => write!(f, "moved 99"),
    }
}
