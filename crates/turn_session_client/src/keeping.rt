//! What the caller keeps of what was granted.

ghost use Rattle.std.specs.Prelude.{◌≡◌};
ghost use Rattle.turn_session_client.specs.Keeping.{kept, let_go};

use turn_client_api::{KeepError, TurnClientApi};
use turn_session_book::keys::Key;
use turn_types::TransportType;

/// Says to the client, which relays over this transport, whether this key is kept. A data connection is not renewed.
pub(crate) fn keep<C: TurnClientApi>(
    client: &mut C,
    relays: TransportType,
    key: Key,
    is_kept: bool,
) -> Result<(), KeepError>
    ensures { (result, C.state client.new) ≡ kept key relays is_kept (C.state client.old) }
{
    match key {
        Key::Permission(ip) => client.set_permission_kept(relays, ip, is_kept),
        Key::Channel(peer) => client.set_channel_kept(relays, peer, is_kept),
        Key::Connect(_) => Err(KeepError::NotGranted),
    }
}

/// Says to the client, which was asked for this key, that it is not kept, unless it is.
pub(crate) fn let_go<C: TurnClientApi>(
    client: &mut C,
    relays: TransportType,
    key: Key,
    is_kept: bool,
)
    ensures { C.state client.new ≡ let_go is_kept key relays (C.state client.old) }
{
    if !is_kept {
        let _known = keep(client, relays, key, false);
    }
}
