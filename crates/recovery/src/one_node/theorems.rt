// Theorems about one node in a recovery: the contracts of functions with an empty body.

ghost use Rattle.recovery.specs.one_node.FirstAnswer.{AnswerAloneIsPutOut, AnswerIsPutOut};
ghost use Rattle.recovery.specs.one_node.ConnectRequest.{ConnectIsProposed};
ghost use Rattle.recovery.specs.one_node.Delivery.{AStepIsADelivery};
ghost use Rattle.recovery.specs.one_node.Opening.{FirstIsOpened};
ghost use Rattle.recovery.specs.one_node.AwaitedAnswer.{
  AskedAwaitsAnswer,
  FirstAwaitsConnect,
  HandingKeepsItWaiting,
  HandingKeepsTheConnect,
  MessagesKeepItWaiting,
};
ghost use Rattle.recovery.specs.one_node.Welcome.{KeptSessionsAreWelcomed};

/// States that a node's step on a message for which its replica has no output is exactly the
/// replica's step, and sends its messages. Each failed connection must have been reported to the
/// broker before, or the node must not serve clients afterwards.
pub fn a_step_is_a_delivery()
    ensures { AStepIsADelivery }
{}

/// States that after the start of a ballot, a Connect of a client whose session exists and is not
/// clean is answered with CONNACK 0 and session present, then only with packets. Its connection is
/// not closed (MQTT 3.1.2.4, 3.2.2.2).
pub fn kept_sessions_are_welcomed()
    ensures { KeptSessionsAreWelcomed }
{}

/// States that a node that serves clients, and accepted no connection in its ballot, opens a
/// connection at a port that is new to it under the first name of the ballot. Nothing else happens.
pub fn first_is_opened()
    ensures { FirstIsOpened }
{}

/// States that bytes that are a CONNECT, on a connection that awaits one, at a node whose log has
/// room, are proposed under the connection's name. Nothing else happens, if the proposal has no
/// output yet.
pub fn connect_is_proposed()
    ensures { ConnectIsProposed }
{}

/// States that if the first output of a message is a packet for an open connection without pending
/// output, its bytes are the first that the node hands over there, whatever else the message leads
/// to.
pub fn answer_is_put_out()
    ensures { AnswerIsPutOut }
{}

/// States that the same holds if a sole member reads the CONNECT, and its proposal is answered at
/// once.
pub fn answer_alone_is_put_out()
    ensures { AnswerAloneIsPutOut }
{}

/// States that a connection that waits for its answer keeps waiting when a calm node that keeps
/// leading takes a message for which its replica has no output.
pub fn messages_keep_it_waiting()
    ensures { MessagesKeepItWaiting }
{}

/// States that it still waits when bytes are handed over, at whichever port.
pub fn handing_keeps_it_waiting()
    ensures { HandingKeepsItWaiting }
{}

/// States that the first connection of a ballot waits for its CONNECT, at a port for which the node
/// lists no other, if no open connection has its name.
pub fn first_awaits_connect()
    ensures { FirstAwaitsConnect }
{}

/// States that it still waits for its CONNECT when bytes are handed over, at whichever port.
pub fn handing_keeps_the_connect()
    ensures { HandingKeepsTheConnect }
{}

/// States that a connection whose CONNECT is proposed waits for its answer.
pub fn asked_awaits_answer()
    ensures { AskedAwaitsAnswer }
{}
