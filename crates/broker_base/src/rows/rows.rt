// Worked examples: the sessions of three clients, and what the definitions say about them. The
// functions do nothing.

ghost use Rattle.broker_base.specs.rows.Rows.{
  TwoAreGranted,
  EachGetsItsCopy,
  OneIsAnswered,
  EachOwnsItsConnection,
  EachHoldsItsFilters,
  OneIsLeftByAStart,
};

/// Shows that a publication at QoS 2 waits for the client that is offline and is sent to the one
/// that is connected, each at its own QoS (MQTT 3.3.5, 4.3.3).
pub fn one_publication_for_three_clients()
    ensures granted { TwoAreGranted }
    ensures sessions { EachGetsItsCopy }
    ensures answers { OneIsAnswered }
{}

/// Shows the map of owners and the index of three clients, how a SUBSCRIBE, an UNSUBSCRIBE and the
/// end of a connection change them, and what a Start leaves (MQTT 3.1.2.4, 3.8.4, 3.10.4).
pub fn maps_of_three_clients()
    ensures owners { EachOwnsItsConnection }
    ensures content { EachHoldsItsFilters }
    ensures start { OneIsLeftByAStart }
{}
