// Worked examples of the definitions, each the contract of a function that does nothing.

ghost use Rattle.broker_spec.specs.Rows.{ConnectIsAnswered, SecondConnectionTakesOver};
ghost use Rattle.broker_spec.specs.Rows.{OlderConnectionIsSilent, SubscribeIsGranted};
ghost use Rattle.broker_spec.specs.Rows.{PublishReachesTheSubscriber, RepeatBeforePubrel};
ghost use Rattle.broker_spec.specs.Rows.{DupAfterPubrel, PubrelTwice};
ghost use Rattle.broker_spec.specs.Rows.{RetainedAtSubscribe, TwoFiltersOnePublication};
ghost use Rattle.broker_spec.specs.FullQueueRows.{FullQueueRefuses, FullQueueGoesOn};
ghost use Rattle.broker_spec.specs.FullQueueRows.{FullQueueKeepsTheOrder};
ghost use Rattle.broker_spec.specs.PacketRows.{PingAndUnsubscribe, ViolationsClose};
ghost use Rattle.broker_spec.specs.WindowRows.{PubackFreesItsIdentifier};
ghost use Rattle.broker_spec.specs.WindowRows.{WideWindowSendsAll, WindowOf64, WindowGrowsAtStart};
ghost use Rattle.broker_spec.specs.LimitRows.{LimitsAre, NamesAre, FifthSessionIsRefused};
ghost use Rattle.broker_spec.specs.LimitRows.{FifthFilterIsRefused, FifthTopicIsRefused};
ghost use Rattle.broker_spec.specs.LimitRows.{ConnectOnACurrentConnection};
ghost use Rattle.broker_spec.specs.RoomRows.{RoomIsLessWhatEarlierFiltersNeed};
ghost use Rattle.broker_spec.specs.QosRows.{LowerQosIsDelivered};
ghost use Rattle.broker_spec.specs.RetainedRows.{RetainedAtTheLowerQos};
ghost use Rattle.broker_spec.specs.QosRows.{ExactlyOnceIsSentAgain};
ghost use Rattle.broker_spec.specs.RetainedRows.{LastPutIsRetained};
ghost use Rattle.broker_spec.specs.QosRows.{CopiesComeByClient};
ghost use Rattle.broker_spec.specs.SessionRows.{SessionsBegin, SessionsEnd, PlacesStandInSessions};
ghost use Rattle.broker_spec.specs.SessionRows.{NewOnce};
ghost use Rattle.broker_spec.specs.EntryRows.{EntriesHaveTheirPlaces};
ghost use Rattle.broker_spec.specs.SessionRows.{LastConnectionIsLive};
ghost use Rattle.broker_spec.specs.ExpelRows.{ExpelledOnce, NothingIsLeft};
ghost use Rattle.broker_spec.specs.ExpelRows.{IdentifiersAreGone, ExpelEnds};

/// Shows that a first CONNECT gets CONNACK 0 without a session.
pub fn connect_is_answered()
    ensures { ConnectIsAnswered }
{}

/// Shows that a client's second connection closes the first and finds its session (MQTT 3.1.4).
pub fn a_second_connection_takes_over()
    ensures closed { SecondConnectionTakesOver }
    ensures older { OlderConnectionIsSilent }
{}

/// Shows that SUBACK grants the QoS that was asked for (MQTT 3.9.3).
pub fn subscribe_is_granted()
    ensures { SubscribeIsGranted }
{}

/// Shows that a publication at QoS 2 is answered by PUBREC and goes to the subscriber (MQTT 4.3.3).
pub fn publish_reaches_the_subscriber()
    ensures { PublishReachesTheSubscriber }
{}

/// Shows that a retransmitted PUBLISH is a repeat until PUBREL, and not after it, whatever its DUP
/// flag says (MQTT 3.3.1.1, 4.3.3).
pub fn a_repeat_before_pubrel()
    ensures repeat { RepeatBeforePubrel }
    ensures other { DupAfterPubrel }
{}

/// Shows that PUBREL is answered by PUBCOMP each time (MQTT 4.3.3).
pub fn pubrel_twice()
    ensures { PubrelTwice }
{}

/// Shows that a retained publication is sent to a later subscriber with RETAIN 1 (MQTT 3.3.1.3).
pub fn retained_at_subscribe()
    ensures { RetainedAtSubscribe }
{}

/// Shows that a client with two matching filters gets a publication once, at the greater QoS (MQTT
/// 3.3.5).
pub fn two_filters_one_publication()
    ensures { TwoFiltersOnePublication }
{}

/// Shows that a publication for which one session has no room is refused and its connection closed,
/// so that the publisher's later publications cannot overtake it.
pub fn a_full_queue_keeps_the_order()
    ensures refuses { FullQueueRefuses }
    ensures goes_on { FullQueueGoesOn }
    ensures order { FullQueueKeepsTheOrder }
{}

/// Shows the answers to PINGREQ and UNSUBSCRIBE, and that a violation closes the connection (MQTT
/// 3.10.4, 3.12.4, 4.8).
pub fn ping_unsubscribe_and_violations()
    ensures answered { PingAndUnsubscribe }
    ensures closed { ViolationsClose }
{}

/// Shows that, with a window of 16, PUBACK sends the 17th publication with the identifier that it
/// freed, and that one stays after the others (MQTT 4.4, 4.6).
pub fn puback_frees_its_identifier()
    ensures { PubackFreesItsIdentifier }
{}

/// Shows that, with a window of 64, 64 entries of a session are in flight at once; and that a
/// window of 16 becomes 64 at the first ballot that begins.
pub fn window_of_64()
    ensures wide { WideWindowSendsAll }
    ensures seventy { WindowOf64 }
    ensures grows { WindowGrowsAtStart }
{}

/// Shows that this broker's limits are 4,096 sessions, 64 subscriptions and 4,096 unfinished
/// entries of each, and 16,384 retained topics. Where the limits are four, a fifth session, filter
/// and topic is refused (MQTT 3.2.2.3, 3.9.3). A connection's name is a ballot of 1 to 2^32 and a
/// number of 1 to 2^40.
pub fn limits_are_met()
    ensures numbers { LimitsAre }
    ensures names { NamesAre }
    ensures sessions { FifthSessionIsRefused }
    ensures subscriptions { FifthFilterIsRefused }
    ensures topics { FifthTopicIsRefused }
    ensures room { RoomIsLessWhatEarlierFiltersNeed }
{}

/// Shows that a publication is answered by its own QoS and identifier. It is delivered at the lower
/// of its QoS and the granted one, to each client in turn (MQTT 3.3.5, 3.8.4).
pub fn lower_qos_is_delivered()
    ensures lower { LowerQosIsDelivered }
    ensures order { CopiesComeByClient }
{}

/// Shows that the last publication with RETAIN 1 is retained at its own QoS. It is sent at the
/// lower of that and the QoS that is asked for (MQTT 3.3.1.3).
pub fn last_publication_is_retained()
    ensures qos { RetainedAtTheLowerQos }
    ensures last { LastPutIsRetained }
{}

/// Shows the retransmissions for a reconnecting client: PUBLISH with DUP 1, or PUBREL (MQTT 4.4).
pub fn exactly_once_is_sent_again()
    ensures { ExactlyOnceIsSentAgain }
{}

/// Shows that a session begins at an accepted Connect that finds none, or is clean, or finds a
/// clean one. A clean one ends with its connection (MQTT 3.1.2.4).
pub fn sessions_begin_and_end()
    ensures begin { SessionsBegin }
    ensures end { SessionsEnd }
    ensures places { PlacesStandInSessions }
{}

/// Shows that the connection of an expelled client is closed and its session removed with
/// everything in it: the client finds none when it reconnects (MQTT 3.1.2.4, 4.1).
pub fn an_expelled_session_is_gone()
    ensures once { ExpelledOnce }
    ensures nothing { NothingIsLeft }
    ensures identifiers { IdentifiersAreGone }
    ensures ends { ExpelEnds }
{}

/// Shows that only the last accepted connection of a client counts, also if the client sends a
/// second CONNECT (MQTT-3.1.0-2, MQTT 3.1.4).
pub fn last_connection_is_live()
    ensures live { LastConnectionIsLive }
    ensures violation { ConnectOnACurrentConnection }
{}

/// Shows the places at which entries are made, started, released and finished, and that a QoS 2
/// publication is new only once (MQTT 4.3).
pub fn entries_have_their_places()
    ensures places { EntriesHaveTheirPlaces }
    ensures new { NewOnce }
{}
