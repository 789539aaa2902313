//! A worked run of the loop.

ghost use Rattle.turn_driver.specs.DrivenRows.{RelayIsDriven};

/// A worked run of [`drive_client`](crate::drive_client): a new client over UDP and a server that grants what is requested, each
/// reply 100 ms after its request. Each iteration of at most eight polls returns `Rest::Until`, and the next one begins by that
/// deadline. After the handshake the caller binds a channel, at 1 s. Its client is left with an allocation, a permission and
/// a channel, each of which was refreshed by 700 s, whatever its addresses, credentials and IDs are.
pub fn a_relay_is_driven()
    ensures driven { RelayIsDriven }
{}
