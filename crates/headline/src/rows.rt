// Worked examples: runs of a world computed to their ends by the definitions. The functions have an
// empty body; their contracts are the examples.

ghost use Rattle.headline.specs.Rows.{AClientIsServed, APublicationIsAccepted};

/// Shows a client that connects to the only node of its group. Its CONNECT reaches the node as
/// bytes, the node opens a session, and the CONNACK reaches the client, which is then served (MQTT
/// 3.1, 3.2).
pub fn a_client_is_served()
    ensures { AClientIsServed }
{}

/// Shows the same client subscribe and publish at QoS 2 to itself: both handshakes end over the
/// bytes of its connection, and the publication is accepted once (MQTT 4.3.3).
pub fn a_publication_is_accepted()
    ensures { APublicationIsAccepted }
{}
