//! A worked run of doubts.

ghost use Rattle.std.specs.Prelude.{◌≡◌, ◌∷◌, []};
ghost use Rattle.turn_session_path.specs.Rows.{polled_doubts};
ghost use Rattle.turn_session_path.specs.Suspicion.{after_doubt, no_doubt};
ghost use Rattle.turn_session_path.specs.declared.suspicion.DoubtStep.TheVariants.{Ask, Unanswered, WaitUntil};

/// A doubt of an allocation, whose server is silent: it is asked at once, at 3 and at 6 s, and at 9 s the session ends.
pub fn a_doubt_is_unanswered()
    ensures { polled_doubts (0 ∷ 1_000_000_000 ∷ 3_000_000_000 ∷ 6_000_000_000 ∷ 9_000_000_000 ∷ []) (after_doubt no_doubt)
        ≡ Ask ∷ WaitUntil 3_000_000_000 ∷ Ask ∷ Ask ∷ Unanswered ∷ [] }
{}
