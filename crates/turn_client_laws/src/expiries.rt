//! Worked times at which grants expire.

ghost use Rattle.std.specs.Prelude.{◌≡◌, ◌∷◌, [], Some, Ok, Err};
ghost use Rattle.turn_stun.specs.declared.transport.TransportType.TheVariants.{Udp};
ghost use Rattle.turn_client_api.specs.State.{State};
ghost use Rattle.turn_client_api.specs.declared.error.BindChannelError.TheVariants.{ExpiredChannelExists};
ghost use Rattle.turn_client_api.specs.declared.event.TurnEvent.TheVariants.{ChannelCreateFailed, PermissionCreateFailed};
ghost use Rattle.turn_client_api.specs.declared.poll.TurnPollRet.TheVariants.{Closed, WaitUntil};
ghost use Rattle.turn_client_api.specs.Calls.{bind_channel_step, free_number};
ghost use Rattle.turn_client_api.specs.Poll.{poll_step};
ghost use Rattle.turn_client_laws.specs.LawsRows.{peer, ip_of_peer};
ghost use Rattle.turn_client_laws.specs.LawsMessages.{ms};
ghost use Rattle.turn_client_laws.specs.LawsExpiries.{with_both, with_channel_alone, with_timed_out_refresh, with_reserved};

/// The grants that expire if they are granted at 100 ms and not refreshed (RFC 8656, sections 9 and 12): a
/// permission at 300.1 s, and a channel at 600.1 s.
pub fn grants_expire()
    // A minute before that the permission is to be refreshed.
    ensures refresh { (s : State) → (poll_step (ms 100) (with_both s)).0 ≡ WaitUntil (ms 240_100) }
    ensures permission { (s : State) → (poll_step (ms 300_100) (with_both s)).0 ≡ WaitUntil (ms 300_100) }
    ensures permission_reported { (s : State) → (poll_step (ms 300_100) (with_both s)).1.events ≡ PermissionCreateFailed Udp ip_of_peer ∷ [] }
    ensures channel_left { (s : State) → (poll_step (ms 300_100) (with_both s)).1.grants ≡ (with_channel_alone s).grants }
    ensures channel_reported { (s : State) → (poll_step (ms 600_100) (with_channel_alone s)).1.events ≡ ChannelCreateFailed Udp peer ∷ [] }
    // Its number and its peer are reserved for 300 s.
    ensures reserved { (s : State) → (poll_step (ms 600_100) (with_channel_alone s)).1.grants ≡ (with_reserved s).grants }
    ensures refused { (s : State) → bind_channel_step Udp peer (ms 601_000) (with_reserved s) ≡ (Err (ExpiredChannelExists (ms 900_100)), with_reserved s) }
    ensures still_refused { (s : State) → bind_channel_step Udp peer (ms 900_100) (with_reserved s)
        ≡ (Err (ExpiredChannelExists (ms 900_100)), with_reserved s) }
    ensures bound { (s : State) → (bind_channel_step Udp peer (ms 900_200) (with_reserved s)).0 ≡ Ok tt }
    // The number is free once `poll` is called after that.
    ensures next_number { (s : State) → free_number (with_reserved s) ≡ Some 0x4001 }
    ensures same_number { (s : State) → free_number (poll_step (ms 900_200) (with_reserved s)).1 ≡ Some 0x4000 }
    ensures allocation { (s : State) → (poll_step (ms 900_200) (with_reserved s)).0 ≡ WaitUntil (ms 940_050) }
    // If its refresh failed, the allocation expires, and the client ends with it.
    ensures unrefreshed { (s : State) → (poll_step (ms 940_050) (with_timed_out_refresh s)).0 ≡ WaitUntil (ms 1_000_050) }
    ensures ended { (s : State) → (poll_step (ms 1_000_050) (with_timed_out_refresh s)).0 ≡ Closed }
{}
