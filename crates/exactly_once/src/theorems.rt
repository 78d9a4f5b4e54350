// Theorems about every story of a client: the contracts of functions with an empty body.

ghost use Rattle.exactly_once.specs.Unexpelled.{UnexpelledLivesAreInStep};
ghost use Rattle.exactly_once.specs.Theorems.{SteadyLivesAccept, SteadyLivesAreExact, SteadyStoriesAcceptInOrder, SteadyStoriesAreExact, SteadyStoriesPublishOnce, StoriesAcceptInOrder, StoriesEnter, StoriesPublishOnce, UsualLivesAccept, UsualLivesAreExact, UsualStoriesAreExact};

/// States that, whatever happens to its connections and to the nodes, a client's QoS 2 publications
/// become new in the list of commands in the order of its calls, each at most once. Each that was
/// answered with PUBREC is in the list, and each enters each session at most once, all
/// retransmissions included. One at QoS 1 that was answered with PUBACK is taken (MQTT 4.3.2,
/// 4.3.3).
pub fn stories_publish_once()
    ensures usual { StoriesPublishOnce }
    ensures steady { SteadyStoriesPublishOnce }
{}

/// States that, whatever happens, a client accepts a prefix of the QoS 2 entries of its session, in
/// order, each once, and every entry that was released is among what it accepted (MQTT 4.3.3, 4.4,
/// 4.6).
pub fn stories_accept_in_order()
    ensures usual { StoriesAcceptInOrder }
    ensures steady { SteadyStoriesAcceptInOrder }
{}

/// States that at the place where a publication of the client is taken, it enters exactly the
/// sessions with a matching filter and an effective QoS of 1 or 2, once each (MQTT 3.3.5).
pub fn stories_enter()
    ensures { StoriesEnter }
{}

/// States that every story keeps both promises: to the client that publishes, and to the client
/// that subscribes (MQTT 4.3.3).
pub fn stories_are_exact()
    ensures usual { UsualStoriesAreExact }
    ensures steady { SteadyStoriesAreExact }
{}

/// States that a client whose sessions an Expel ends, and that is in step, accepts in each of them
/// a prefix of that session's QoS 2 entries, in order, each once, and every one that was released
/// (MQTT 4.3.3, 4.4, 4.6).
pub fn lives_accept_in_each_session()
    ensures usual { UsualLivesAccept }
    ensures steady { SteadyLivesAccept }
{}

/// States that a client whose sessions an Expel ends, and that is in step, has its QoS 2
/// publications new in the list in the order of its calls, each at most once. Each that was
/// answered is in the list, and each enters each session at most once. In each of its own sessions
/// it accepts a prefix of the entries (MQTT 4.3.2, 4.3.3, 4.6).
pub fn lives_are_exact()
    ensures usual { UsualLivesAreExact }
    ensures steady { SteadyLivesAreExact }
{}

/// States that a client that no Expel of the list names has one session at most, which lasts once
/// it began, and is in step. So all that is promised for clients in step holds for it (MQTT
/// 3.1.2.4).
pub fn unexpelled_lives_are_in_step()
    ensures { UnexpelledLivesAreInStep }
{}
