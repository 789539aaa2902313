//! `turn_client_grants`: worked rows of the table alone, and random changes.

ghost use Rattle.std.specs.Prelude.{◌≡◌, ◌==◌};
ghost use Rattle.std.specs.List.{list_any};

use turn_client_grants::GrantLedger;
use turn_stun::transaction::TransactionId;

mod numbers;
mod plain;
mod random;
mod rows;

/// Whether a request with this ID is listed.
fn is_asked(ledger: &GrantLedger, id: TransactionId) -> bool
    ensures { result ≡ list_any (λ l. l.id == id) ledger.now.listed }
{
    ledger.table().purposes_of(id).has_some()
}
