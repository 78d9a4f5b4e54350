// Theorems about the keeper's steps. The functions only call those whose theorems they need; their
// contracts are the theorems.

ghost use Rattle.client_base.specs.HistoryTheorems.{CallsFollow};
ghost use Rattle.client_base.specs.IdentifierTheorems.{UsedIdentifiersAreDistinct, RequestsAreApart};
ghost use Rattle.client_base.specs.OrderTheorems.{GoesOutInOrder, NumbersStay};
ghost use Rattle.client_base.specs.Theorems.{AcceptsUnlessKept, StaysKept};

use session_base::least_identifier_is_free;

/// States that a publication at QoS 2 is accepted exactly if its identifier is not kept, and that
/// the identifier is then kept until its PUBREL or the loss of the session (MQTT 4.3.3).
pub fn accepted_once_an_identifier()
    ensures accepts { AcceptsUnlessKept }
    ensures stays { StaysKept }
{}

/// States that the client without a history does the same as the one with it, call by call and
/// packet by packet: it keeps what the history says is kept, in order, and writes the same packets.
pub fn history_is_followed()
    ensures { CallsFollow }
{
    least_identifier_is_free();
}

/// States that no identifier is in flight twice, and that a publication and a request never share
/// one, whatever is called and whatever the server sends (MQTT 2.3.1).
pub fn used_identifiers_are_distinct()
    ensures distinct { UsedIdentifiersAreDistinct }
    ensures apart { RequestsAreApart }
{
    least_identifier_is_free();
}

/// States that publications are numbered in the order of their calls, and that after each CONNACK 0
/// those that are not released are sent in this order (MQTT 4.4, 4.6).
pub fn publishing_order_is_kept()
    ensures stay { NumbersStay }
    ensures order { GoesOutInOrder }
{}
