// Theorems about the map of owners and the index of subscriptions: how each step changes them. The
// functions do nothing; their contracts are the theorems.

ghost use Rattle.broker_base.specs.rows.OwnerTheorems.{
  WritingKeepsOwners,
  LeavingRemovesTheOwner,
  ConnectingSetsTheOwner,
  ResumingSetsTheOwner,
  StartRemovesTheOwners,
  PublishingKeepsOwners,
  OwnersMadeAnew,
};
ghost use Rattle.broker_base.specs.rows.IndexTheorems.{
  WritingKeepsContent,
  SubscribingSets,
  UnsubscribingClears,
  LeavingDropsTheClean,
  BeginningDrops,
  StartDropsTheClean,
  PublishingKeepsContent,
  IndexMadeAnew,
};

/// States that writing a session with the connection that it had does not change the map of owners,
/// that writing one with the subscriptions that it had does not change the index, and that a
/// publication changes neither.
pub fn maps_stay()
    ensures owners { WritingKeepsOwners }
    ensures content { WritingKeepsContent }
    ensures published_owners { PublishingKeepsOwners }
    ensures published_content { PublishingKeepsContent }
{}

/// States that the connection of an accepted Connect becomes its client's, and that the client's
/// old connection has no client any more (MQTT 3.1.4).
pub fn owners_of_connect()
    ensures begins { ConnectingSetsTheOwner }
    ensures resumes { ResumingSetsTheOwner }
{}

/// States that a connection that ends has no client any more, and that no connection has one after
/// a Start.
pub fn owners_of_end()
    ensures leaving { LeavingRemovesTheOwner }
    ensures start { StartRemovesTheOwners }
{}

/// States that a SUBSCRIBE sets each filter that is granted, and that an UNSUBSCRIBE clears each of
/// its filters (MQTT 3.8.4, 3.10.4).
pub fn content_of_subscriptions()
    ensures sets { SubscribingSets }
    ensures clears { UnsubscribingClears }
{}

/// States that the subscriptions of an ended session are dropped: when a clean one loses its
/// connection, when another session begins in its place, and at a Start (MQTT 3.1.2.4).
pub fn content_of_ended_sessions()
    ensures leaving { LeavingDropsTheClean }
    ensures begins { BeginningDrops }
    ensures start { StartDropsTheClean }
{}

/// States that a map of owners and an index that are rebuilt from the sessions agree with them.
pub fn maps_made_anew()
    ensures owners { OwnersMadeAnew }
    ensures content { IndexMadeAnew }
{}
