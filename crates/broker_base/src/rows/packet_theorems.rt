// Theorems about a packet on a client's current connection, and about the end of such a connection:
// the whole step, by the one session that it writes. The functions do nothing; their contracts are
// the theorems.

ghost use Rattle.broker_base.specs.rows.PacketTheorems.{HandledStep, SubscribeStep};
ghost use Rattle.broker_base.specs.rows.IdlePacketTheorems.{PingreqStep};
ghost use Rattle.broker_base.specs.rows.IdlePacketTheorems.{RepeatStep, NobodysPacketStep};
ghost use Rattle.broker_base.specs.rows.LeavingTheorems.{LeavingStep, FurtherConnectStep};
ghost use Rattle.broker_base.specs.rows.LeavingTheorems.{LostStep, NobodysLossStep};
ghost use Rattle.broker_base.specs.rows.Served.{IsOnItsConnection};

/// States that a client that is served on a connection has its session there, and that the session
/// is found by the client.
pub fn served_session_is_found()
    ensures { IsOnItsConnection }
{}

/// States that PUBACK, PUBREC, PUBREL, PUBCOMP, UNSUBSCRIBE and PINGREQ write only their sender's
/// session, and that only the sender is answered (MQTT 3.10.4, 3.12.4, 4.3, 4.6); PINGREQ does not
/// change it.
pub fn handled_packet_steps()
    ensures handled { HandledStep }
    ensures pingreq { PingreqStep }
{}

/// States that a SUBSCRIBE sets the filters that are granted, and that its sender is sent SUBACK
/// and the retained publications that match them (MQTT 3.8.4).
pub fn subscribe_steps()
    ensures { SubscribeStep }
{}

/// States that a retransmission of a taken PUBLISH changes nothing and is acknowledged once more
/// (MQTT 4.3.3).
pub fn repeat_steps()
    ensures { RepeatStep }
{}

/// States that the end of a client's connection leaves its session without one, or removes a clean
/// session. A connection ends at a DISCONNECT, a violation, a refused PUBLISH, a further Connect,
/// and when it is lost (MQTT 3.14.4, 4.8).
pub fn leaving_steps()
    ensures packet { LeavingStep }
    ensures connect { FurtherConnectStep }
    ensures lost { LostStep }
{}

/// States that a packet on a connection that is no client's current one changes nothing and has no
/// answer; nor has the loss of such a connection.
pub fn nobodys_steps()
    ensures packet { NobodysPacketStep }
    ensures lost { NobodysLossStep }
{}
