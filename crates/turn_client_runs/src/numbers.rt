//! The numbers of channels, over whole runs.

ghost use Rattle.turn_client_laws.specs.LawsNumbers.{HasDistinctNumbers};
ghost use Rattle.turn_client_runs.specs.Holds.{HoldsInAnyRun, HoldsInRuns};

/// After any list of calls no channel number names two peers (RFC 8656, section 12): the numbers of all
/// channels that are pending, active or reserved, of all allocations, are pairwise distinct. That holds
/// even if some memory allocations failed.
pub fn numbers_stay_distinct()
    ensures found { HoldsInRuns HasDistinctNumbers }
    ensures any { HoldsInAnyRun HasDistinctNumbers }
{}
