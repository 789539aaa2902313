//! Which channel number is free.

ghost use Rattle.std.specs.Prelude.{◌≡◌, ℕ, ◌+◌, ◌<◌, ◌≤◌, ◌&&◌, ◌||◌, false, find, length, nat_le, nat_lt, not, true, IfSome};
ghost use Rattle.std.specs.List.{list_any, position};
ghost use Rattle.turn_client_api.specs.Calls.{channel_numbers};
ghost use Rattle.turn_client_api.specs.Grants.{is_channel_of};
ghost use Rattle.turn_client_grants.specs.Lists.{Marks, is_marked};

use crate::table::GrantTable;
use turn_client_api::Grant;

/// The least and the greatest number that a channel may have, and how many there are (RFC 8656, section 12).
const FIRST_NUMBER: u16 = 0x4000;

const LAST_NUMBER: u16 = 0x4fff;

const NUMBER_COUNT: usize = 0x1000;

impl GrantTable {
    /// The least channel number that no channel has, not even a pending or reserved one, in any
    /// allocation (our choice): so no number names two peers at one time. It is one that a client may
    /// bind (RFC 8656, section 12).
    pub fn free_number(&self) -> Option<u16>
        ensures found { result ≡ find (λ number. not (list_any (is_channel_of number) self.now.grants)) channel_numbers }
        ensures numbered { IfSome result (λ number. (nat_le 0x4000 number && nat_lt number 0x5000) ≡ true) }
        ensures free { IfSome result (λ number. list_any (is_channel_of number) self.now.grants ≡ false) }
    {
        // Once through the grants: testing each number against all grants would take quadratic time.
        let mut taken = [false; NUMBER_COUNT];
        mark_all(self.grants.as_slice(), &mut taken);
        let place = first_unmarked(&taken)?;
        Some(FIRST_NUMBER + place as u16)
    }
}

/// Marks the numbers that a channel has. The first place is that of the least number.
fn mark_all(grants: &[Grant], taken: &mut [bool])
    requires count { length taken.old ≡ 0x1000 }
    requires clear { (place : ℕ) → place < 0x1000 → is_marked taken.old place ≡ false }
    ensures { Marks taken.new grants.now }
{
    for grant in grants {
        mark(grant, taken);
    }
}

/// Marks the number of the grant, if it is a channel.
fn mark(grant: &Grant, taken: &mut [bool])
    requires { length taken.old ≡ 0x1000 }
    ensures { (place : ℕ) → place < 0x1000 → is_marked taken.new place ≡ (is_marked taken.old place || is_channel_of (0x4000 + place) grant.now) }
{
    if let Grant::Channel(number @ FIRST_NUMBER..=LAST_NUMBER, _, _) = grant {
        taken[usize::from(*number - FIRST_NUMBER)] = true;
    }
}

/// The first place that is not marked.
fn first_unmarked(taken: &[bool]) -> Option<usize>
    ensures found { result ≡ position not taken.now }
    ensures within { IfSome result (λ place. place < length taken.now) }
{
    taken.iter().position(|is_taken| !*is_taken)
}
