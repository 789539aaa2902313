//! A worked run of a path check.

ghost use Rattle.std.specs.Prelude.{◌≡◌, ◌∷◌, []};
ghost use Rattle.turn_session_path.specs.Rounds.{begun_at};
ghost use Rattle.turn_session_path.specs.Rows.{polled_round};
ghost use Rattle.turn_session_path.specs.declared.round.Asks.TheVariants.{Both};
ghost use Rattle.turn_session_path.specs.declared.round.CheckRequest.TheVariants.{BarePermission, Binding};
ghost use Rattle.turn_session_path.specs.declared.round.RoundStep.TheVariants.{Send, Unanswered, WaitUntil};
ghost use Rattle.turn_stun.specs.declared.transport.TransportType.TheVariants.{Tcp, Udp};

/// A probe without a response. Over UDP it sends Binding requests at 0 and 0.5 s and a bare CREATE_PERMISSION at 1.5 s, and
/// over a stream one of each; either is over at 3.5 s.
pub fn a_probe_is_unanswered()
    ensures udp { polled_round Udp (0 ∷ 0 ∷ 500_000_000 ∷ 1_500_000_000 ∷ 3_499_999_999 ∷ 3_500_000_000 ∷ []) (begun_at Both 0)
        ≡ Send Binding ∷ WaitUntil 500_000_000 ∷ Send Binding ∷ Send BarePermission ∷ WaitUntil 3_500_000_000 ∷ Unanswered ∷ [] }
    ensures stream { polled_round Tcp (0 ∷ 0 ∷ 1_500_000_000 ∷ 3_500_000_000 ∷ []) (begun_at Both 0)
        ≡ Send Binding ∷ WaitUntil 1_500_000_000 ∷ Send BarePermission ∷ Unanswered ∷ [] }
{}
