// What comes of what is done with a node, as it is shown.

use ballot_base::{Body, Effect};
use broker_spec::{Command, Output};
use node::{NodeNaming, NodeState, Permit};
use run_history::RunNaming;
use std::alloc::Global;
use std::sync::Wait;
use world_base::node_connections::Handed;

/// What a node sends.
#[derive(Clone, Copy, Debug, PartialEq, Eq)]
pub(super) enum Sent {
    /// To this node, by this one, for this place of this ballot: client `a` connects, on the
    /// connection of this ballot and number.
    Connect(u8, u8, (u64, u64), (u64, u64)),
    /// To this node, by this one: another message, which no row has.
    Other(u8, u8),
    /// An output, which no row has.
    Output,
}

/// What came of one act or call.
#[derive(Clone, Copy, Debug, PartialEq, Eq)]
pub(super) enum Came {
    /// The item was sent by the lane.
    Sent,
    /// Nothing: it was not sent, or there is no such node, or memory ran out.
    Nothing,
    /// No item waited. So many effects are for other nodes.
    NoItem(usize),
    /// An item was taken. So many effects are for other nodes, and this is the first.
    Took(usize, Option<Sent>),
    /// This many items of the lane were taken; none if it is not a lane of the node.
    Met(Option<u64>),
    /// The node holds this many commands.
    Held(u64),
    /// What the node says of the connection (none if memory ran out), how many bytes were handed
    /// over, and the first of them (zeros after the last).
    HandedOver(Option<Handed>, usize, [u8; 4]),
    /// Whether the CONNECT is answered, or one loss is counted in its place.
    Answered(bool),
    /// Whether each of both nodes took as many items as it was to.
    Both(bool),
}

/// An item was taken that has no effect on other nodes.
pub(super) const SILENT: Came = Came::Took(0, None);

/// Returns that an item was sent, if it was.
pub(super) fn sent_if(is_sent: bool) -> Came {
    if is_sent { Came::Sent } else { Came::Nothing }
}

/// Takes an item, if the permit is for this node, and returns what came of it.
pub(super) fn take_permitted<H: RunNaming, J: NodeNaming, R: Wait>(
    rt: &R,
    alloc: Global,
    state: &mut NodeState<H, J>,
    permit: &Permit<'_>,
) -> Came {
    let mut effects = Vec::new(alloc);
    let receipt = state.receipt();
    if !permit.is_for(state) {
        Came::Nothing
    } else if state.take_one(rt, &mut effects, receipt) {
        Came::Took(effects.len(), effects.first().map(sent_of))
    } else {
        Came::NoItem(effects.len())
    }
}

// Returns an effect as it is shown.
fn sent_of(effect: &Effect<Command, Output>) -> Sent {
    match effect {
        Effect::To(to, message) => match &message.body {
            Body::Append(ballot, place, Command::Connect(name, client, _))
                if client.as_str() == "a" => {
                let connection = (name.ballot(), name.count());
                Sent::Connect(*to, message.from, (*ballot, *place), connection)
            }
            _ => Sent::Other(*to, message.from),
        },
        Effect::Out(_, _) => Sent::Output,
    }
}
