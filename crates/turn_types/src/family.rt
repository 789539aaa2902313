//! Families of addresses (RFC 8656, section 18.6).

ghost use Rattle.std.specs.Prelude.{◌≡◌};
ghost use Rattle.turn_types.specs.Family.{family_number, family_with_number};

/// The IP version of the address that an allocation is to have.
#[derive(Clone, Copy, Debug, Default, PartialEq, Eq)]
pub enum AddressFamily {
    /// IPv4.
    #[default]
    IPV4,
    /// IPv6.
    IPV6,
}

impl AddressFamily {
    /// The family with this number: 1 is IPv4 and 2 is IPv6 (RFC 8656, section 18.6). `None` for
    /// any other.
    pub fn from_number(number: u8) -> Option<AddressFamily>
        ensures { result ≡ family_with_number number }
    {
        match number {
            1 => Some(AddressFamily::IPV4),
            2 => Some(AddressFamily::IPV6),
            _ => None,
        }
    }

    /// The number of the family: 1 for IPv4 and 2 for IPv6 (RFC 8656, section 18.6).
    pub fn number(self) -> u8
        ensures value { result ≡ family_number self }
        ensures again { family_with_number result ≡ Some self }
    {
        match self {
            AddressFamily::IPV4 => 1,
            AddressFamily::IPV6 => 2,
        }
    }
}
