//! The attributes that TURN adds (RFC 8656, section 18, and RFC 6062, section 6.2).

mod additional_address_family;
mod allocation_lifetime;
mod channel_number;
mod connection_id;
mod dont_fragment;
mod icmp_report;
mod peer_data;
mod requested_address_family;
mod requested_transport;
mod value;
mod xor_peer_address;
mod xor_relayed_address;

pub use additional_address_family::AdditionalAddressFamily;
pub use allocation_lifetime::Lifetime;
pub use channel_number::ChannelNumber;
pub use connection_id::ConnectionId;
pub use dont_fragment::DontFragment;
pub use icmp_report::Icmp;
pub use peer_data::Data;
pub use requested_address_family::RequestedAddressFamily;
pub use requested_transport::RequestedTransport;
pub use xor_peer_address::XorPeerAddress;
pub use xor_relayed_address::XorRelayedAddress;
