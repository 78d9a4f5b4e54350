// Theorems about identifiers, and about a client's queue and session. The functions do nothing;
// their contracts are the theorems.

ghost use Rattle.session_base.specs.Theorems.{IsLeastFree, FillKeepsApart, FillIsDone, FillStaysWithin};
ghost use Rattle.session_base.specs.Theorems.{FillKeepsOrder, FillSendsWhatStarts};
ghost use Rattle.session_base.specs.Theorems.{FillsJoin, CopiesAreOneFill};
ghost use Rattle.session_base.specs.OrderTheorems.{AnswersFitTheQoS, AnswersKeepApart};
ghost use Rattle.session_base.specs.OrderTheorems.{OtherAnswersChangeNothing};
ghost use Rattle.session_base.specs.OrderTheorems.{SecondPubrecChangesNothing, ReleasedComesLast};
ghost use Rattle.session_base.specs.OrderTheorems.{KeepsReleasedFirst, ResendsInOrder};
ghost use Rattle.session_base.specs.KeepingTheorems.{FiltersStayApart, FiltersKeepTheirOrder};
ghost use Rattle.session_base.specs.KeepingTheorems.{ReceivedStayRising};

/// States that the least free identifier is at least 1, at most one more than the number of busy
/// ones, and not busy, and that each lower one is busy.
pub fn least_identifier_is_free()
    ensures { IsLeastFree }
{}

/// States that a fill starts waiting publications in order, with free identifiers, until none waits
/// or the window is full; and that it sends what it starts.
pub fn fill_takes_what_waits()
    ensures done { FillIsDone }
    ensures within { FillStaysWithin }
    ensures order { FillKeepsOrder }
    ensures sends { FillSendsWhatStarts }
    ensures apart { FillKeepsApart }
{}

/// States that two fills in sequence are one fill, also with copies that are added between them.
pub fn fills_join()
    ensures two { FillsJoin }
    ensures copies { CopiesAreOneFill }
{}

/// States that an acknowledgement for which no entry waits changes nothing; nor does a second
/// PUBREC.
pub fn other_answers_change_nothing()
    ensures others { OtherAnswersChangeNothing }
    ensures second { SecondPubrecChangesNothing }
{}

/// States that acknowledgements leave the identifiers in flight distinct, and that PUBREC leaves as
/// many in flight.
pub fn answers_keep_identifiers_apart()
    ensures { AnswersKeepApart }
{}

/// States that released entries come first, in the order of their release, and that a reconnecting
/// client is sent the entries in flight in order.
pub fn resend_keeps_the_order()
    ensures last { ReleasedComesLast }
    ensures first { KeepsReleasedFirst }
    ensures order { ResendsInOrder }
{}

/// States that PUBACK finishes an entry of QoS 1 alone, and PUBREC and PUBCOMP an entry of QoS 2.
pub fn answers_fit_the_qos()
    ensures { AnswersFitTheQoS }
{}

/// States that each filter of a session occurs once, in the order of the first grant, and that
/// received identifiers are ascending. Every grant, removal and reception and each PUBREL preserves
/// this.
pub fn sessions_keep_their_form()
    ensures filters { FiltersStayApart }
    ensures order { FiltersKeepTheirOrder }
    ensures received { ReceivedStayRising }
{}
