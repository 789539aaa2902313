//! What is read from the grant that a key finds, for changes.

ghost use Rattle.std.specs.Prelude.{◌≡◌, ◌&&◌};
ghost use Rattle.std.specs.List.{list_any};
ghost use Rattle.turn_client_api.specs.Grants.{is_for};
ghost use Rattle.turn_client_grants.specs.Keys.{is_found_by};
ghost use Rattle.turn_client_grants.specs.Pending.{are_for_refreshed, is_for_refreshed, is_refreshed};

use crate::due::is_refreshed;
use crate::key::Key;
use crate::purposes::Purposes;
use crate::reads;
use crate::table::GrantTable;
use turn_client_api::Purpose;

impl GrantTable {
    /// Whether one of these purposes is for a grant that is refreshed: whether and when that is done
    /// depends on the requests for it.
    pub(super) fn are_for_refreshed(&self, purposes: &Purposes) -> bool
        ensures { result ≡ are_for_refreshed purposes.now self.now.grants }
    {
        self.is_one_for_refreshed(&purposes.first) || self.is_one_for_refreshed(&purposes.second)
    }

    /// Whether there is a purpose, and it is for a grant that is refreshed.
    fn is_one_for_refreshed(&self, purpose: &Option<Purpose>) -> bool
        ensures { result ≡ is_for_refreshed purpose.now self.now.grants }
    {
        match purpose {
            Some(purpose) => self.is_for_refreshed(purpose),
            None => false,
        }
    }

    /// Whether the purpose is for a grant that is refreshed.
    fn is_for_refreshed(&self, purpose: &Purpose) -> bool
        ensures { result ≡ list_any (λ g. is_refreshed g && is_for purpose.now g) self.now.grants }
    {
        match purpose {
            Purpose::ForPermission(ip) => self.is_refreshed_by(&Key::Ip(*ip)),
            Purpose::ForChannel(number, _) => self.is_refreshed_by(&Key::Number(*number)),
            Purpose::ForRefresh(family, _) => {
                reads::find_allocation(self.grants.as_slice(), *family).is_some()
            }
            Purpose::ForAllocation => false,
            Purpose::ForConnect(_) => false,
            Purpose::ForBind(_, _, _) => false,
        }
    }

    /// Whether the key finds a grant that is refreshed.
    fn is_refreshed_by(&self, key: &Key) -> bool
        ensures { result ≡ list_any (λ g. is_refreshed g && is_found_by key.now g) self.now.grants }
    {
        match self.index.find(self.grants.as_slice(), key) {
            Some(grant) => is_refreshed(&grant),
            None => false,
        }
    }
}
