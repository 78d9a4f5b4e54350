// Finding the clients of a topic by a walk along its levels.

ghost use Rattle.std.specs.Prelude.{◌≡◌, OnOk, OnErr, option_and_then, option_map};
ghost use Rattle.std.specs.BTreeMap.{Updates, get};
ghost use Rattle.std.specs.Cmp.Lexicographic.{slice_cmp};
ghost use Rattle.std.specs.Ordering.{nat_cmp};
ghost use Rattle.topics.specs.Text.{levels_of};
ghost use Rattle.std.specs.Prelude.{Some};
ghost use Rattle.subs.specs.Rows.{qos_of_client};
ghost use Rattle.subs.specs.Shown.{shape, root_of};
ghost use Rattle.subs.specs.Walk.{greatest, Raises, GivesSome, found_at, found_below};
ghost use Rattle.subs.specs.Walk.{found_for, found_after};

use crate::node_id::NodeId;
use crate::nodes::Nodes;
use crate::rows::Rows;
use crate::slots::child;
use machine::Memory;
use packet_base::{ClientId, QoS};
use std::collections::BTreeMap;
use topics::split_level;

// Each client found so far, with its greatest QoS.
type Found = BTreeMap<ClientId, QoS>;

impl Nodes {
    /// Raises each client with a filter that matches the topic to the QoS of that filter. A
    /// wildcard in the first level does not match a topic that begins with `$` (MQTT 4.7.2).
    pub(crate) fn find(&self, topic: &[u8], found: &mut Found) -> Result<(), Memory>
        ensures ok { OnOk result
            (Raises found.old found.new (found_for (shape self.now) (root_of self.now) topic.now)) }
        ensures some { OnErr result
            (GivesSome (found_for (shape self.now) (root_of self.now) topic.now)) }
    {
        let Some(root) = self.root else {
            return Ok(());
        };
        if !topic.starts_with(b"$".as_slice()) {
            return self.find_at(root, Some(topic), found);
        }
        let (level, after) = split_level(topic);
        self.find_after(child(&self.slab, root, level), after, found)
    }

    // Continues the walk at a node: raises each client with a matching filter below it.
    #[cycle(find_at)]
    fn find_at(&self, at: NodeId, topic: Option<&[u8]>, found: &mut Found) -> Result<(), Memory>
        ensures ok { OnOk result
            (Raises found.old found.new
            (found_at (shape self.now) at.number (levels_of topic.entry))) }
        ensures some { OnErr result
            (GivesSome (found_at (shape self.now) at.number (levels_of topic.entry))) }
    {
        let Some(node) = self.slab.get(at.number) else {
            return Ok(());
        };
        raise_all(&node.rest, found)?;
        let Some(text) = topic else {
            return raise_all(&node.here, found);
        };
        let (level, after) = split_level(text);
        self.find_after(node.child(level), after, found)?;
        self.find_after(node.plus, after, found)
    }

    // Continues the walk at a child, if there is one.
    #[cycle(find_at)]
    fn find_after(
        &self,
        below: Option<NodeId>,
        after: Option<&[u8]>,
        found: &mut Found,
    ) -> Result<(), Memory>
        ensures ok { OnOk result
            (Raises found.old found.new
            (found_after (shape self.now) (option_map (λ id. id.number) below)
            (levels_of after.entry))) }
        ensures some { OnErr result
            (GivesSome (found_after (shape self.now) (option_map (λ id. id.number) below)
            (levels_of after.entry))) }
    {
        match below {
            Some(below) => self.find_at(below, after, found),
            None => Ok(()),
        }
    }
}

// Raises each of these clients to its QoS.
fn raise_all(rows: &Rows, found: &mut Found) -> Result<(), Memory>
    ensures ok { OnOk result (Raises found.old found.new (qos_of_client rows.now)) }
    ensures some { OnErr result (GivesSome (qos_of_client rows.now)) }
{
    match rows {
        Rows::Empty => Ok(()),
        Rows::One(client, qos) => raise(client, *qos, found),
        Rows::Many(clients) => raise_each(clients, found),
    }
}

fn raise_each(clients: &BTreeMap<ClientId, QoS>, found: &mut Found) -> Result<(), Memory>
    ensures ok { OnOk result (Raises found.old found.new (get (slice_cmp nat_cmp) clients.now)) }
    ensures some { OnErr result (GivesSome (get (slice_cmp nat_cmp) clients.now)) }
{
    for (client, qos) in clients {
        raise(client, *qos, found)?;
    }
    Ok(())
}

// Inserts the client, or raises it to this QoS if its own is lower.
fn raise(client: &ClientId, qos: QoS, found: &mut Found) -> Result<(), Memory>
    ensures { OnOk result (Updates (slice_cmp nat_cmp) found.old found.new client.now
        (greatest (get (slice_cmp nat_cmp) found.old client.now) (Some qos))) }
{
    if let Some(best) = found.get_mut(client) {
        if best.number() < qos.number() {
            *best = qos;
        }
        return Ok(());
    }
    found.insert(client.clone()?, qos)?;
    Ok(())
}
