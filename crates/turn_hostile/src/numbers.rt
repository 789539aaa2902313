//! The number of the channel that each peer has, by the packet that is sent to it: no two peers have one number.

use crate::acts::Act;
use crate::session::Session;
use std::alloc::Global;
use turn_client_api::TurnClientApi;
use turn_hostile_net::facts::{Fact, Facts};
use turn_hostile_net::fault::{Fault, expect};
use turn_hostile_net::world::{FRIENDS, Kind, peer};

/// Sends to each peer to which a channel was granted, and compares the numbers of the channels over which that goes.
///
/// # Errors
///
/// `Wrong` if two peers have one number, or a peer has one that was not granted, and `OutOfMemory` if memory allocation
/// fails.
pub fn are_distinct<C: TurnClientApi>(
    alloc: Global,
    client: &mut C,
    session: &mut Session,
    facts: &Facts,
    kind: Kind,
    now: u64,
) -> Result<(), Fault> {
    let mut numbers: Vec<u16> = Vec::new(alloc);
    for friend in 0..FRIENDS {
        let to = peer(friend);
        if !facts.has(Fact::ChannelTo(to)) {
            continue;
        }
        let act = Act::Send(kind.relays, to, 0);
        let words = format!(in alloc; "{act}")?;
        let Some(number) = session.number_of(client, now, words.as_str())? else {
            continue;
        };
        expect(
            facts.has(Fact::Channel(number, to)),
            "a peer has a channel that was not granted",
        )?;
        expect(
            !numbers.as_slice().contains(&number),
            "two peers have one channel number",
        )?;
        numbers.push(number)?;
    }
    Ok(())
}

/// The number of the channel over which these bytes go, if they are a ChannelData message (RFC 8656, section 12.4).
pub fn number_in(bytes: &[u8]) -> Option<u16> {
    match bytes {
        [high @ 0x40..=0x4f, low, ..] => Some(u16::from_be_bytes([*high, *low])),
        _ => None,
    }
}
