// A worked example: a run of a world computed to its end by the definitions. The function has an
// empty body; its contract is the example.

ghost use Rattle.headline.specs.packet_world.Rows.{AcceptsOnce};

/// Shows a client that publishes at QoS 2 to itself, loses its node before any answer, and
/// reconnects to another node: the publication is accepted once (MQTT 4.3.3, 4.4).
pub fn accepts_once_over_a_takeover()
    ensures { AcceptsOnce }
{}
