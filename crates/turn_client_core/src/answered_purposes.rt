//! The purposes of requests that a reply of the server concerns.

ghost use Rattle.std.specs.Prelude.{◌≡◌, ◌≢◌, [], false, filter, find, option_to_list, true};
ghost use Rattle.turn_client_api.specs.Payloads.{is_answered};
ghost use Rattle.turn_client_api.specs.Retry.{retried};
ghost use Rattle.turn_client_core.specs.Kinds.{of_kind};
ghost use Rattle.turn_client_grants.specs.GrantFilter.{purposes_in};

use turn_client_api::Purpose;
use turn_client_grants::Purposes;
use turn_stun::message::method::Method;
use turn_types::message::{ALLOCATE, CHANNEL_BIND, CONNECT, CREATE_PERMISSION, REFRESH};

/// Whether a reply of this method concerns the purpose. A CONNECTION_BIND is answered only over its own
/// connection (RFC 6062, section 4.3).
fn is_answered(method: Method, purpose: &Purpose) -> bool
    ensures { result ≡ is_answered method.value purpose.now }
{
    match purpose {
        Purpose::ForAllocation => method == ALLOCATE,
        Purpose::ForRefresh(_, _) => method == REFRESH,
        Purpose::ForPermission(_) => method == CREATE_PERMISSION,
        Purpose::ForChannel(_, _) => method == CHANNEL_BIND,
        Purpose::ForConnect(_) => method == CONNECT,
        Purpose::ForBind(_, _, _) => false,
    }
}

/// Those of a request's purposes that a reply of this method concerns.
pub(crate) fn answered(method: Method, purposes: &Purposes) -> Purposes
    ensures { purposes_in result ≡ filter (is_answered method.value) (purposes_in purposes.now) }
{
    Purposes {
        first: answered_one(method, &purposes.first),
        second: answered_one(method, &purposes.second),
    }
}

/// Whether there is none.
pub(crate) fn is_empty(purposes: &Purposes) -> bool
    ensures none { result ≡ true → purposes_in purposes.now ≡ [] }
    ensures some { result ≡ false → purposes_in purposes.now ≢ [] }
{
    purposes.first.is_none() && purposes.second.is_none()
}

fn answered_one(method: Method, purpose: &Option<Purpose>) -> Option<Purpose>
    ensures { option_to_list result ≡ filter (is_answered method.value) (option_to_list purpose.now) }
{
    match purpose {
        Some(purpose) if is_answered(method, purpose) => Some(*purpose),
        _ => None,
    }
}

/// The kind of a request, as far as it decides which of two purposes is requested again.
#[derive(Clone, Copy, Debug, PartialEq, Eq)]
enum Kind {
    /// REFRESH.
    Refresh,
    /// CHANNEL_BIND.
    ChannelBind,
    /// CREATE_PERMISSION.
    CreatePermission,
    /// ALLOCATE or CONNECT.
    AllocateOrConnect,
}

impl Kind {
    /// Whether the purpose is of this kind.
    fn holds(self, purpose: &Purpose) -> bool
        ensures { result ≡ of_kind self purpose.now }
    {
        match self {
            Kind::Refresh => matches!(purpose, Purpose::ForRefresh(_, _)),
            Kind::ChannelBind => matches!(purpose, Purpose::ForChannel(_, _)),
            Kind::CreatePermission => matches!(purpose, Purpose::ForPermission(_)),
            Kind::AllocateOrConnect => {
                matches!(purpose, Purpose::ForAllocation | Purpose::ForConnect(_))
            }
        }
    }

    /// The first of the purposes that is of this kind.
    fn first_of(self, purposes: &Purposes) -> Option<Purpose>
        ensures { result ≡ find (of_kind self) (purposes_in purposes.now) }
    {
        if let Some(first) = purposes.first {
            if self.holds(&first) {
                return Some(first);
            }
        }
        purposes.second.filter(|second| self.holds(second))
    }
}

/// The purpose for which a challenged request is made again over the control connection: a CHANNEL_BIND
/// is made again as a CHANNEL_BIND, even if it also requests a permission (RFC 8656, section 12.2). A
/// CONNECTION_BIND is made again only over its own connection.
pub(crate) fn retried(purposes: &Purposes) -> Option<Purpose>
    ensures { result ≡ retried (purposes_in purposes.now) }
{
    if let Some(refresh) = Kind::Refresh.first_of(purposes) {
        return Some(refresh);
    }
    if let Some(channel) = Kind::ChannelBind.first_of(purposes) {
        return Some(channel);
    }
    if let Some(permission) = Kind::CreatePermission.first_of(purposes) {
        return Some(permission);
    }
    Kind::AllocateOrConnect.first_of(purposes)
}
