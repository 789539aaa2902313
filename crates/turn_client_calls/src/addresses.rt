//! The addresses that a call returns, as values.

ghost use Rattle.std.specs.Prelude.{◌≡◌};

use std::marker::Model;
use std::net::{IpAddr, SocketAddr};
use turn_stun::transport::TransportType;

/// The relayed addresses of a client with their transports, in the order in which the server granted
/// them. Contracts describe it as the list of them.
#[derive(Debug, Drop)]
pub struct RelayedAddresses {
    addresses: Vec<(TransportType, SocketAddr)>,
}

impl Model for RelayedAddresses {
    ghost use Rattle.std.specs.Prelude.{List};
    ghost use Rattle.std.specs.declared.net.socket_addr.SocketAddr.{SocketAddr};
    ghost use Rattle.turn_stun.specs.declared.transport.TransportType.{TransportType};

    ghost Value = { List (TransportType × SocketAddr) };

    ghost view = { λ relayed. relayed.addresses.items };
}

impl RelayedAddresses {
    /// The addresses.
    pub fn as_slice(&self) -> &[(TransportType, SocketAddr)]
        ensures { result.now ≡ self.now }
    {
        self.addresses.as_slice()
    }
}

impl From<Vec<(TransportType, SocketAddr)>> for RelayedAddresses {
    ghost from_gives = { λ addresses relayed. relayed ≡ addresses.items };

    fn from(addresses: Vec<(TransportType, SocketAddr)>) -> RelayedAddresses {
        RelayedAddresses { addresses }
    }
}

/// The peer IP addresses that have a permission in an allocation, in the order in which the server
/// granted them. Contracts describe it as the list of them.
#[derive(Debug, Drop)]
pub struct PermittedAddresses {
    addresses: Vec<IpAddr>,
}

impl Model for PermittedAddresses {
    ghost use Rattle.std.specs.Prelude.{List};
    ghost use Rattle.std.specs.declared.net.ip_addr.IpAddr.{IpAddr};

    ghost Value = { List IpAddr };

    ghost view = { λ permitted. permitted.addresses.items };
}

impl PermittedAddresses {
    /// The addresses.
    pub fn as_slice(&self) -> &[IpAddr]
        ensures { result.now ≡ self.now }
    {
        self.addresses.as_slice()
    }
}

impl From<Vec<IpAddr>> for PermittedAddresses {
    ghost from_gives = { λ addresses permitted. permitted ≡ addresses.items };

    fn from(addresses: Vec<IpAddr>) -> PermittedAddresses {
        PermittedAddresses { addresses }
    }
}
