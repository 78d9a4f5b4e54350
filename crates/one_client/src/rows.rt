// A worked example: a client beside a stranger, computed to the end by the definitions. The function
// has an empty body; its contract is the example.

ghost use Rattle.one_client.specs.Rows.{AcceptsBesideAStranger};

/// Shows a client whose node is told of its connection only after a stranger came and brought bytes
/// that begin no packet. It subscribes to what it publishes at QoS 2, both handshakes end, and it
/// has accepted its publication once (MQTT 4.3.3).
pub fn accepts_beside_a_stranger()
    ensures { AcceptsBesideAStranger }
{}
