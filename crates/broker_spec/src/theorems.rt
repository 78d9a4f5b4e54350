// Theorems about the definitions, each the contract of a function that does nothing.

ghost use Rattle.broker_spec.specs.Theorems.{CurrentIsLastAccepted, FilterHasLastGranting};
ghost use Rattle.broker_spec.specs.Theorems.{RepeatIsUnreleased};
ghost use Rattle.broker_spec.specs.EntryTheorems.{NothingWaitsInVain, EntriesOnlyGrow};
ghost use Rattle.broker_spec.specs.EntryTheorems.{PublicationEnters, TakenPublishAddsOne};
ghost use Rattle.broker_spec.specs.IdentifierTheorems.{IdentifiersAreDistinct};
ghost use Rattle.broker_spec.specs.IdentifierTheorems.{IdentifiersAreInTheWindow, IdentifiersAreTo64};
ghost use Rattle.broker_spec.specs.IdentifierTheorems.{StartedComeFirst};
ghost use Rattle.broker_spec.specs.OriginTheorems.{EntersOnce};
ghost use Rattle.broker_spec.specs.NobodyTheorems.{PacketOfNobodyIsNothing, WindowIsSteady};
ghost use Rattle.broker_spec.specs.AnswerTheorems.{AnswersAreAddressed};
ghost use Rattle.broker_spec.specs.StartTheorems.{StartsWhereItMay};

/// States that a client is served on the connection of its last accepted Connect, unless that one
/// was ended since (MQTT 3.1.4).
pub fn current_is_last_accepted()
    ensures { CurrentIsLastAccepted }
{}

/// States that each filter of a session has the QoS of its last grant, unless it was removed since
/// (MQTT 3.8.4, 3.10.4).
pub fn filter_has_last_granting()
    ensures { FilterHasLastGranting }
{}

/// States that a PUBLISH at QoS 2 is a repeat exactly if the session took one with its identifier
/// and no PUBREL with it came since (MQTT 4.3.3).
pub fn repeat_is_unreleased()
    ensures { RepeatIsUnreleased }
{}

/// States that an entry waits only if its client is not connected, or if the entries before it fill
/// the window (MQTT 4.6).
pub fn nothing_waits_in_vain()
    ensures { NothingWaitsInVain }
{}

/// States that while a session lasts its entries keep their order, identifiers and times, that an
/// entry that has started stays started, and that new entries are appended.
pub fn entries_only_grow()
    ensures { EntriesOnlyGrow }
{}

/// States that the identifiers in flight in a session are distinct and from 1 to the window, and
/// that waiting entries come after those in flight (MQTT 2.3.1).
pub fn identifiers_are_distinct()
    ensures distinct { IdentifiersAreDistinct }
    ensures window { IdentifiersAreInTheWindow }
    ensures usual { IdentifiersAreTo64 }
    ensures first { StartedComeFirst }
{}

/// States that a taken PUBLISH gives each session one entry if its effective QoS is 1 or 2, and
/// otherwise none (MQTT 3.3.5).
pub fn taken_publish_adds_one()
    ensures { TakenPublishAddsOne }
{}

/// States that at the place where it is taken, a publication enters exactly the sessions with an
/// effective QoS of 1 or 2, once each (MQTT 3.3.5).
pub fn publication_enters()
    ensures { PublicationEnters }
{}

/// States that a publication enters a session at most once, even if several filters match or it is
/// retransmitted (MQTT 3.3.5, 4.3.3).
pub fn enters_once()
    ensures { EntersOnce }
{}

/// States that a packet on a connection that is no client's current one changes nothing and has no
/// answer (MQTT 3.1.4).
pub fn packet_of_nobody_is_nothing()
    ensures nothing { PacketOfNobodyIsNothing }
    ensures steady { WindowIsSteady }
{}

/// States that each answer goes to the connection that the command names, or is a PUBLISH or a
/// Close on some client's current connection.
pub fn answers_are_addressed()
    ensures { AnswersAreAddressed }
{}

/// States that an entry starts only if its client is connected and fewer entries than the window
/// are in flight before it, and that it gets the least identifier that none of these has (MQTT
/// 2.3.1, 4.6).
pub fn starts_where_it_may()
    ensures { StartsWhereItMay }
{}
