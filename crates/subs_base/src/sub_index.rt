// The trait of an index of subscriptions.

ghost use Rattle.std.specs.Prelude.{◌≡◌, ◌↔◌, None, IsTrue, IsSome, OnOk, OnErr};
ghost use Rattle.subs_base.specs.Content.{
  Content,
  no_subscriptions,
  with_row,
  without_row,
  without_client,
};
ghost use Rattle.subs_base.specs.Granted.{AppendsGranted, IsWanted};

use machine::Memory;
use packet_base::{ClientId, QoS};
use std::alloc::Global;
use topics::{Filter, TopicName};

/// The subscriptions of all clients; each pair of client and filter occurs once.
pub trait SubIndex: Drop {
    ghost content: { Self → Content };

    /// Returns an index without subscriptions.
    fn new(alloc: Global) -> Self
        ensures { content result ≡ no_subscriptions };

    /// Sets the client's subscription to this filter. Replacing an identical one takes no memory
    /// (MQTT 3.8.4).
    fn set(&mut self, client: &ClientId, filter: &Filter, qos: QoS) -> Result<(), Memory>
        ensures ok { OnOk result
            (content self.new ≡ with_row (content self.old) client.now filter.now qos) }
        ensures err { OnErr result (content self.new ≡ content self.old) }
        ensures absent { OnErr result (content self.old client.now filter.now ≡ None) };

    /// Removes the client's subscription to exactly this filter, and returns whether there was one
    /// (MQTT 3.10.4). Takes no memory.
    fn clear(&mut self, client: &ClientId, filter: &Filter) -> bool
        ensures found { IsTrue result ↔ IsSome (content self.old client.now filter.now) }
        ensures after { content self.new
            ≡ without_row (content self.old) client.now filter.now };

    /// Removes all subscriptions of the client. Takes no memory.
    fn drop_client(&mut self, client: &ClientId)
        ensures { content self.new ≡ without_client (content self.old) client.now };

    /// Appends a row for each client with a filter that matches the topic, with the greatest QoS of
    /// these filters (MQTT 3.3.5), in the order of the clients' bytes. If memory runs out `rows` is
    /// unchanged; if no filter matches no memory is taken.
    fn granted(&self, topic: &TopicName, rows: &mut Vec<(ClientId, QoS)>) -> Result<(), Memory>
        ensures ok { OnOk result
            (AppendsGranted (content self.now) topic.now rows.old.items rows.new.items) }
        ensures err { OnErr result (rows.new.items ≡ rows.old.items) }
        ensures wanted { OnErr result (IsWanted (content self.now) topic.now) };
}
