//! All that runs keep, as `turn_client_proto::replay` carries it.

ghost use Rattle.turn_client_runs.specs.Calm.{TrafficIsCalm};
ghost use Rattle.turn_client_runs.specs.Deliveries.{DataIsReturned};
ghost use Rattle.turn_client_runs.specs.Ends.{TellsItsEnd};
ghost use Rattle.turn_client_runs.specs.Events.{EventsHaveCauses};
ghost use Rattle.turn_client_runs.specs.Holds.{HoldsOfRuns};
ghost use Rattle.turn_client_runs.specs.LastingRuns.{GrantsLastInRuns};
ghost use Rattle.turn_client_runs.specs.Offers.{BoundAreOffered};
ghost use Rattle.turn_client_runs.specs.InOrder.{InputsFollow};
ghost use Rattle.turn_client_runs.specs.Processed.{CallsProcessInputs};
ghost use Rattle.turn_client_runs.specs.Promises.{AfterEach, BoundHaveSuccess, CutsAgree, FewAreAnswered, GrantsHaveReplies, DeliversOnlyPermitted};
ghost use Rattle.turn_client_runs.specs.Promises.{NumbersAreDistinct, RealmIsAnswered, RealmStays, RepliesCountOnce};
ghost use Rattle.turn_client_runs.specs.Sends.{ReachablePeersAreSentTo};
ghost use Rattle.turn_client_runs.specs.Sent.{PacketsGoOut};
ghost use Rattle.turn_client_runs.specs.Short.{StreamsAreShort};
ghost use Rattle.turn_client_runs.specs.Tried.{RequestsAreTried};

/// What a run of a new client keeps, whatever its configuration, its seed and its calls, if no memory allocation
/// fails. After each call every active grant has its signed reply to an own request, no channel number names two
/// peers, and what is bound has the success that bound it, and the offer that the caller accepted for it (RFC 8656,
/// sections 7.3, 9, 12; RFC 6062, sections 4.3 and 4.4). Each payload is of a permitted peer, and all payloads of
/// such are returned, a reply is accepted once, and of any calls that follow each other at most as many challenges
/// as configured are answered before a signed reply. Realm and algorithm stay, and are those of the first challenge
/// that was answered. What calls change and return is by their inputs, and these are all that arrives for a stream,
/// in order. What goes out goes to the server, and data for a peer to that peer, whenever it can be reached. Each
/// event that is returned has its cause in the calls before. Streams that are polled to the end hold less than the
/// longest frame, and the pieces of a stream return what their joined bytes return. In each part of a run in which
/// the server answers and the caller is late by little, no grant is lost that is kept. Data of peers makes nothing
/// due. A request is tried as often as configured, and `poll` tells that the client has ended only if it has. The
/// clauses are laws of this crate, stated for one run; `held`, `processed`, `events`, `short`, and what `heard` and
/// `realm` say of each input, are proved here alone.
pub fn runs_keep_their_promises()
    ensures granted { HoldsOfRuns (AfterEach GrantsHaveReplies) }
    ensures numbers { HoldsOfRuns (AfterEach NumbersAreDistinct) }
    ensures bound { HoldsOfRuns (AfterEach BoundHaveSuccess) }
    ensures offers { HoldsOfRuns (AfterEach BoundAreOffered) }
    ensures heard { HoldsOfRuns DeliversOnlyPermitted }
    ensures delivered { HoldsOfRuns DataIsReturned }
    ensures counted { HoldsOfRuns RepliesCountOnce }
    ensures challenges { HoldsOfRuns FewAreAnswered }
    ensures realm { HoldsOfRuns RealmStays }
    ensures held { HoldsOfRuns RealmIsAnswered }
    ensures processed { HoldsOfRuns CallsProcessInputs }
    ensures order { HoldsOfRuns InputsFollow }
    ensures sent { HoldsOfRuns PacketsGoOut }
    ensures sends { HoldsOfRuns ReachablePeersAreSentTo }
    ensures events { HoldsOfRuns EventsHaveCauses }
    ensures short { HoldsOfRuns StreamsAreShort }
    ensures cuts { HoldsOfRuns CutsAgree }
    ensures lasts { HoldsOfRuns GrantsLastInRuns }
    ensures calm { HoldsOfRuns TrafficIsCalm }
    ensures tried { HoldsOfRuns RequestsAreTried }
    ensures ends { HoldsOfRuns TellsItsEnd }
{}
