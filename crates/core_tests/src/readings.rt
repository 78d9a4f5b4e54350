// What entries and limits say at places that no worked example of the broker reaches. The calls do
// nothing; their contracts are the rows.

ghost use Rattle.std.specs.Prelude.{◌≡◌, false, [], ◌∷◌, Some};
ghost use Rattle.broker_spec.specs.Connection.{ConnectionName};
ghost use Rattle.broker_spec.specs.Entries.{Entry};
ghost use Rattle.broker_spec.specs.Owner.{IsLive};
ghost use Rattle.broker_spec.specs.Sessions.{current_connection};
ghost use Rattle.broker_spec.specs.Place.{Client, Limits, Past};
ghost use Rattle.broker_spec.specs.Readings.{sent_entries, start_place};
ghost use Rattle.broker_spec.specs.Retained.{is_retained_over};
ghost use Rattle.session_base.specs.declared.publication.Publication.{Publication};
ghost use Rattle.core_tests.specs.Guards.{
  EntriesFitTheirQoS,
  AnswersOfAnotherQoSAreNothing,
  ExpelledWhileAway,
  ExpelsOfNobodyAreNothing,
};

/// Shows that a released entry keeps the place at which it started, and is no longer one that is
/// sent again (MQTT 4.3.3).
pub fn released_entries_are_read()
    ensures start { (publication : Publication) →
        start_place (Entry.Released 1 publication 2 3 4) ≡ Some 3 }
    ensures sent { (publication : Publication) →
        sent_entries (Entry.Released 1 publication 2 3 4 ∷ []) ≡ [] }
{}

/// States that a publication that removes what is retained needs no room, however much is retained
/// (MQTT 3.3.1.3).
pub fn removing_needs_no_room()
    ensures { (limits : Limits) (past : Past) (publication : Publication) →
        publication.payload ≡ [] → is_retained_over limits past publication ≡ false }
{}

/// States that a connection is live only as the current one of a client, so one that is over is not
/// (MQTT 3.1.4, 3.14.4).
pub fn live_connections_are_current()
    ensures { (past : Past) (connection : ConnectionName) → IsLive past connection →
        (client : Client) × (current_connection past client ≡ Some connection) }
{}

/// Shows that PUBACK finishes only an entry of QoS 1, and PUBREC and PUBCOMP only one of QoS 2.
/// This holds in a list of commands as in a queue (MQTT 4.3.2, 4.3.3).
pub fn answers_fit_the_qos()
    ensures entries { EntriesFitTheirQoS }
    ensures others { AnswersOfAnotherQoSAreNothing }
{}

/// Shows that an Expel of an identifier that no session has does nothing, and that an Expel ends
/// the session of a client that is away.
pub fn expels_of_nobody_are_nothing()
    ensures nobody { ExpelsOfNobodyAreNothing }
    ensures away { ExpelledWhileAway }
{}
