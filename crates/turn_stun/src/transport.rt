//! Packets and the transports that carry them.

ghost use Rattle.std.specs.Prelude.{◌≡◌};

use std::fmt;
use std::net::SocketAddr;

/// The transport of a packet.
#[derive(Clone, Copy, Debug, PartialEq, Eq)]
pub enum TransportType {
    /// Datagrams.
    Udp,
    /// A stream of bytes.
    Tcp,
}

/// `UDP` or `TCP`.
impl fmt::Display for TransportType {
    fn fmt<W: fmt::Write>(&self, f: &mut fmt::Formatter<W>) -> fmt::Result {
        match self {
            TransportType::Udp => write!(f, "UDP"),
            TransportType::Tcp => write!(f, "TCP"),
        }
    }
}

/// A packet, which the caller sends or has received: its bytes, source, destination and transport.
///
/// `T` holds the bytes, as `Data` or a slice of the caller's own.
#[derive(Debug, Drop)]
pub struct Transmit<T> {
    /// The bytes of the packet.
    pub payload: T,
    /// The transport of the packet.
    pub transport: TransportType,
    /// Its source.
    pub from: SocketAddr,
    /// Its destination.
    pub to: SocketAddr,
}

impl<T> Transmit<T> {
    /// The packet with this payload, source, destination and transport.
    pub fn new(
        payload: T,
        transport: TransportType,
        from: SocketAddr,
        to: SocketAddr,
    ) -> Transmit<T>
        ensures payload { result.payload ≡ payload }
        ensures transport { result.transport ≡ transport }
        ensures from { result.from ≡ from }
        ensures to { result.to ≡ to }
    {
        Transmit {
            payload,
            transport,
            from,
            to,
        }
    }

    /// The packet with the same source, destination and transport whose payload is `f` of this one's.
    pub fn reinterpret_data<U, F: FnOnce(T) -> U>(self, f: F) -> Transmit<U>
        requires { F.pre f self.payload }
        ensures payload { F.post f self.payload result.payload }
        ensures transport { result.transport ≡ self.transport }
        ensures from { result.from ≡ self.from }
        ensures to { result.to ≡ self.to }
    {
        let Transmit {
            payload,
            transport,
            from,
            to,
        } = self;
        Transmit {
            payload: f(payload),
            transport,
            from,
            to,
        }
    }
}
