// Theorems about copies that are added to a session in parts. The functions do nothing; their
// contracts are the theorems.

ghost use Rattle.broker_base.specs.rows.CopyTheorems.{CopiesJoin, CopiesTakeRoom};
ghost use Rattle.broker_base.specs.rows.CopyTheorems.{CopiesFindRoom, SubscribesInTurn};

/// States that copies that are added to a session in two parts leave and send what all of them do
/// together. Each copy of QoS 1 or 2 takes one slot of its room, so each finds room if there is
/// enough for all (MQTT 4.6).
pub fn copies_in_parts()
    ensures joins { CopiesJoin }
    ensures room { CopiesTakeRoom }
    ensures enough { CopiesFindRoom }
{}

/// States that a SUBSCRIBE may be handled filter by filter: each is granted by the session that the
/// filters before it left (MQTT 3.8.4).
pub fn subscribes_in_turn()
    ensures { SubscribesInTurn }
{}
