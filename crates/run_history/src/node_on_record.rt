// A node with what it knows of the log.
//
// The invariant: by that prefix of the log the node at its index has just this state, and just as
// many events as it counted. Whoever takes its lock finds a node of the one run.
//
// A call first does the node's step and then adds the event, in the same call; messages leave it
// only afterwards. If the word shows other events of the node, which does not occur, the call
// waits for ever.

ghost use Rattle.std.specs.Prelude.{◌≡◌, ◌<◌, ◌+◌, ◌++◌, [], OnErr, OnOk, IfOk, IsOk, slice_get, Some};
ghost use mathlib.Core.List.{IsPrefix};
ghost use Rattle.world_base.specs.node_connections.PendingOutput.{handed_after, pending_bytes};
ghost use Rattle.world_base.specs.node_core.PortOutput.{listed_at};
ghost use Rattle.run_history.specs.Ends.{IsSettled};
ghost use Rattle.run_history.specs.History.{IsNodeOf};
ghost use Rattle.run_history.specs.Log.{nodes_in, sent_in};
ghost use Rattle.run_history.specs.Parties.{HandedOver, TookItem};
ghost use Rattle.run_history.specs.Rules.{word_of};
ghost use Rattle.run_history.specs.Sending.{ItemWasSent};

use crate::event::RunEvent;
use crate::naming::RunNaming;
use crate::rule::RunRule;
use crate::seen_run::SeenRun;
use crate::sent_item::SentItem;
use crate::told;
use crate::told::Told;
use crate::waiting::{wait_unless_below, wait_unless_equal};
use logbook::Word;
use std::marker::Model;
use std::snapshot::Snapshot;
use std::sync::Wait;
use world_base::{Command, Effect, Handed, Item, Memory, NodeCore, Output, Port};

/// A party never has this many events.
pub(crate) const EVENT_LIMIT: u64 = 1 << 62;

/// A node whose steps are events of the run.
#[derive(Drop)]
pub struct NodeOnRecord<H: RunNaming> {
    // Its number less 1.
    index: u8,
    core: NodeCore,
    word: Word<RunEvent, u64, RunRule>,
    // How many events it has; the word has the same number.
    count: u64,
    seen: SeenRun<H>,
}

impl<H: RunNaming> Model for NodeOnRecord<H> {
    ghost use Rattle.std.specs.Prelude.{◌≡◌, ◌<◌, ◌+◌};
    ghost use Rattle.run_history.specs.History.{IsNodeOf};
    ghost use Rattle.run_history.specs.Parties.{NodeView};
    ghost use Rattle.run_history.specs.Rules.{word_of};

    ghost Value = { NodeView };

    ghost view = { λ state.
        record { index = state.index; node = state.core; log = state.seen } };

    ghost invariant = { λ state.
        (state.word ≡ word_of H.book (state.index + 1)) × (state.index < H.nodes)
        × IsNodeOf H.nodes H.config state.seen state.index state.core.core state.count };
}

impl<H: RunNaming> NodeOnRecord<H> {
    /// Returns a node without events.
    pub(crate) fn new(
        index: u8,
        core: NodeCore,
        word: Word<RunEvent, u64, RunRule>,
        seen: SeenRun<H>,
    ) -> NodeOnRecord<H>
        requires word { word ≡ word_of H.book (index + 1) }
        requires below { index < H.nodes }
        requires node { IsNodeOf H.nodes H.config seen index core.core 0 }
        ensures { result ≡ record { index = index; node = core; log = seen } }
    {
        NodeOnRecord {
            index,
            core,
            word,
            count: 0,
            seen,
        }
    }

    /// Returns its index, which is its number less 1.
    pub fn index(&self) -> u8
        ensures { result ≡ self.now.index }
    {
        self.index
    }

    /// Returns the prefix of the log that it knows.
    pub fn seen(&self) -> SeenRun<H>
        ensures { result ≡ self.now.log }
    {
        self.seen.again()
    }

    /// Returns its state.
    pub fn core(&self) -> &NodeCore
        ensures { result.now ≡ self.now.node }
    {
        &self.core
    }

    /// Proves that by the log the node has the state that it has.
    pub fn is_of_run(&self)
        ensures { slice_get (nodes_in H.nodes H.config self.now.log) self.now.index
            ≡ Some self.now.node.core }
    {
        let _core = &self.core;
    }

    /// Proves that by `mark`, which has all that the node knows, it has the state that it has and
    /// no further events. Waits for ever if the log has further events of the node.
    pub fn settle<R: Wait>(&self, rt: &R, mark: &SeenRun<H>)
        requires { IsPrefix self.now.log mark.now }
        ensures { IsSettled H.nodes H.config mark.now self.now }
    {
        let mut later = mark.again();
        let count = later.look(&self.word);
        wait_unless_equal(rt, count, self.count);
    }

    /// Handles an item as [`NodeCore::step`], as an event of the run; what `known` says comes
    /// before it. If the item is a message, it was sent to this node by what is known.
    pub fn take<R: Wait>(
        &mut self,
        rt: &R,
        item: Item,
        known: &SeenRun<H>,
        effects: &mut Vec<Effect<Command, Output>>,
    )
        requires { ItemWasSent (sent_in known.now) self.old.index item }
        ensures took { TookItem self.old item self.new effects.old.items effects.new.items }
        ensures known { IsPrefix known.now self.new.log }
    {
        wait_unless_below(rt, self.count, EVENT_LIMIT);
        let before = effects.len();
        let taken = Snapshot::of(&item);
        let mut seen = self.seen.again();
        seen.learn(known);
        self.core.step(item, effects);
        let told = Told::Taken(told::Taken {
            node: self.index,
            item: taken,
            after: Snapshot::of(&self.core),
            before,
            effects: Snapshot::of(effects),
        });
        seen.add_or_wait(rt, &self.word, self.count, &told);
        self.count += 1;
        self.seen = seen;
    }

    /// Handles an item that was sent to it, as [`NodeOnRecord::take`]. Waits for ever if the item
    /// is for another node.
    pub fn take_sent<R: Wait>(
        &mut self,
        rt: &R,
        sent: SentItem<H>,
        effects: &mut Vec<Effect<Command, Output>>,
    )
        ensures { TookItem self.old sent self.new effects.old.items effects.new.items }
    {
        let (number, item, known) = sent.into_parts();
        wait_unless_equal(rt, u64::from(number), u64::from(self.index) + 1);
        self.take(rt, item, &known, effects);
    }

    /// Hands over the pending output of a port as [`NodeCore::outgoing`], as an event of the run.
    pub fn outgoing<R: Wait>(
        &mut self,
        rt: &R,
        port: Port,
        out: &mut Vec<u8>,
    ) -> Result<Handed, Memory>
        ensures bytes { OnOk result (out.new.items
            ≡ out.old.items ++ pending_bytes (listed_at port self.old.node.core)) }
        ensures answer { IfOk result (λ handed.
            handed ≡ handed_after (listed_at port self.old.node.core)) }
        ensures hands { OnOk result (HandedOver self.old port self.new) }
        ensures nothing { pending_bytes (listed_at port self.old.node.core) ≡ [] → IsOk result }

        // Running out of memory changes nothing, and is no event.
        ensures same { OnErr result (self.new ≡ self.old) }
        ensures err { OnErr result (out.new.items ≡ out.old.items) }
    {
        wait_unless_below(rt, self.count, EVENT_LIMIT);
        let handed = self.core.outgoing(port, out)?;
        let after = Snapshot::of(&self.core);
        let told = Told::HandedOver(told::HandedOver {
            node: self.index,
            port,
            after,
        });
        let mut seen = self.seen.again();
        seen.add_or_wait(rt, &self.word, self.count, &told);
        self.count += 1;
        self.seen = seen;
        Ok(handed)
    }
}
