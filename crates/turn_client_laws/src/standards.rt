//! The numbers of the standards.

ghost use Rattle.std.specs.Prelude.{◌≡◌};
ghost use Rattle.turn_types.specs.Send.{peer_kind, data_kind};
ghost use Rattle.turn_client_api.specs.State.{max_time};
ghost use Rattle.turn_client_api.specs.Effect.{allocation_mismatch, family_not_supported};
ghost use Rattle.turn_client_api.specs.Requests.{connection_already_exists, connection_timed_out};
ghost use Rattle.turn_client_api.specs.Requests.{allocate_method, channel_bind_method, connect_method, connection_attempt_method, connection_bind_method};
ghost use Rattle.turn_client_api.specs.Requests.{create_permission_method, data_method, refresh_method};
ghost use Rattle.turn_client_api.specs.Requests.{additional_family_kind, bad_request, channel_number_kind, connection_id_kind, dont_fragment_kind, error_kind};
ghost use Rattle.turn_client_api.specs.Requests.{icmp_kind, lifetime_kind, relayed_kind, requested_family_kind, requested_transport_kind};

use turn_stun::attribute::AttributeType;
use turn_stun::attribute::error_code::ErrorCode;
use turn_stun::instant::Instant;
use turn_stun::message::method::Method;
use turn_types::attribute::{
    AdditionalAddressFamily, ChannelNumber, ConnectionId, Data, DontFragment, Icmp, Lifetime,
    RequestedAddressFamily, RequestedTransport, XorPeerAddress, XorRelayedAddress,
};
use turn_types::message::{
    ALLOCATE, CHANNEL_BIND, CONNECT, CONNECTION_ATTEMPT, CONNECTION_BIND, CREATE_PERMISSION, DATA,
    REFRESH,
};

/// The machine's numbers are those that the crates below write and read: its attribute types (RFC 8656,
/// section 18, and RFC 6062, section 6.2), its error codes (RFC 8489, section 14.8; RFC 8656, section 19;
/// RFC 6062, section 6.3), its methods (RFC 8656, section 17, and RFC 6062, section 6.1), and both ends of
/// its clock. The methods and these two times are returned, in the order of the clauses.
pub fn numbers_are_the_standards() -> (
    Method,
    Method,
    Method,
    Method,
    Method,
    Method,
    Method,
    Method,
    Instant,
    Instant,
)
    // types of attributes
    ensures error { error_kind ≡ AttributeType.ERROR_CODE.value }
    ensures channel_number { channel_number_kind ≡ ChannelNumber.TYPE.value }
    ensures lifetime { lifetime_kind ≡ Lifetime.TYPE.value }
    ensures peer { peer_kind ≡ XorPeerAddress.TYPE.value }
    ensures peer_data { data_kind ≡ Data.TYPE.value }
    ensures relayed { relayed_kind ≡ XorRelayedAddress.TYPE.value }
    ensures requested_family { requested_family_kind ≡ RequestedAddressFamily.TYPE.value }
    ensures requested_transport { requested_transport_kind ≡ RequestedTransport.TYPE.value }
    ensures dont_fragment { dont_fragment_kind ≡ DontFragment.TYPE.value }
    ensures connection_id { connection_id_kind ≡ ConnectionId.TYPE.value }
    ensures additional_family { additional_family_kind ≡ AdditionalAddressFamily.TYPE.value }
    ensures icmp { icmp_kind ≡ Icmp.TYPE.value }
    // error codes
    ensures bad_request { bad_request ≡ ErrorCode.BAD_REQUEST }
    ensures mismatch { allocation_mismatch ≡ ErrorCode.ALLOCATION_MISMATCH }
    ensures family { family_not_supported ≡ ErrorCode.ADDRESS_FAMILY_NOT_SUPPORTED }
    ensures exists { connection_already_exists ≡ ErrorCode.CONNECTION_ALREADY_EXISTS }
    ensures timed_out { connection_timed_out ≡ ErrorCode.CONNECTION_TIMEOUT_OR_FAILURE }
    // methods
    ensures allocate { result.0.value ≡ allocate_method }
    ensures refresh { result.1.value ≡ refresh_method }
    ensures data { result.2.value ≡ data_method }
    ensures create_permission { result.3.value ≡ create_permission_method }
    ensures channel_bind { result.4.value ≡ channel_bind_method }
    ensures connect { result.5.value ≡ connect_method }
    ensures connection_bind { result.6.value ≡ connection_bind_method }
    ensures connection_attempt { result.7.value ≡ connection_attempt_method }
    // The pause of a client that has sent nothing ends at time 0, and the machine's sums stop at the
    // greatest `Instant`.
    ensures first_time { result.8 ≡ 0 }
    ensures last_time { result.9 ≡ max_time }
{
    (
        ALLOCATE,
        REFRESH,
        DATA,
        CREATE_PERMISSION,
        CHANNEL_BIND,
        CONNECT,
        CONNECTION_BIND,
        CONNECTION_ATTEMPT,
        Instant::ZERO,
        Instant::from_nanos(u64::MAX),
    )
}
