// The right to take the bytes of one port from a node.

ghost use Rattle.std.specs.Prelude.{◌≡◌, ◌++◌, ◌↔◌, [], IfOk, IsOk, IsTrue, OnErr, OnOk, length, true};
ghost use Rattle.node_base.specs.connection.Written.{HandsOver};
ghost use Rattle.world_base.specs.node_connections.PendingOutput.{pending_bytes};
ghost use Rattle.world_base.specs.node_core.PortOutput.{hands_over, listed_at};
ghost use Rattle.node.specs.HandedCounts.{counts_after};
ghost use Rattle.run_history.specs.Log.{opening_log};
ghost use Rattle.streams.specs.Taps.{HandsNone, HandsOut, IsNextTap};

use machine::Memory;
use node::{NodeNaming, NodeState};
use node_base::connection::Tap;
use run_history::{RunNaming, SeenRun};
use std::marker::Model;
use std::sync::Wait;
use world_base::node_connections::{Handed, Port};

/// The right to take what a node queued for one port. A connection has one, made with it, which
/// counts the bytes. By its type they are all that the node of the run handed over for the port,
/// from the first byte on: if the node counts others there, as for a second tap of the port, the tap
/// takes nothing any more.
#[derive(Drop)]
pub struct PortTap<H: RunNaming> {
    // The number of the node.
    number: u8,
    port: Port,
    // How many bytes were handed over by it (saturates at 2^64 - 1).
    handed: u64,
    // A prefix of the run's log, by which these are all that the node handed over for the port.
    seen: SeenRun<H>,
}

impl<H: RunNaming> Model for PortTap<H> {
    ghost use Rattle.std.specs.Prelude.{◌≡◌, ◌-◌, length};
    ghost use Rattle.node.specs.Growth.{saturated};
    ghost use Rattle.node.specs.HandedBytes.{handed_at};
    ghost use Rattle.streams.specs.Taps.{TapView};

    ghost Value = { TapView };

    ghost view = { λ tap. record {
      number = tap.number;
      port = tap.port;
      handed = tap.handed;
      log = tap.seen;
    } };

    ghost invariant = { λ tap. tap.handed
        ≡ saturated (length (handed_at H.nodes H.config (tap.number - 1) tap.port tap.seen)) };
}

impl<H: RunNaming> Tap for PortTap<H> {
    ghost use Rattle.streams.specs.Taps.{HandsOut, HandsNone};

    ghost opens = { HandsNone H.nodes H.config };

    ghost hands = { HandsOut H.linked H.nodes H.config };
}

impl<H: RunNaming> PortTap<H> {
    /// Returns a tap of this port of the node of this number, by which nothing was handed over.
    /// `opening` is the log of the run as it opened.
    pub(crate) fn new(number: u8, port: Port, opening: SeenRun<H>) -> PortTap<H>
        requires { opening ≡ opening_log H.nodes H.config H.linked }
        ensures is { result ≡ record {
          number = number;
          port = port;
          handed = 0;
          log = opening;
        } }
        ensures none { HandsNone H.nodes H.config result }
    {
        PortTap {
            number,
            port,
            handed: 0,
            seen: opening,
        }
    }

    /// Returns its port.
    pub(crate) fn port(&self) -> Port
        ensures { result ≡ self.now.port }
    {
        self.port
    }

    /// Appends the bytes that the node queued for the port and has not yet handed over, and counts
    /// them. Returns whether more may come, as [`NodeState::outgoing`]. If the node is another, or
    /// counts other bytes at the port than this tap, hands over nothing and returns
    /// [`Handed::Closed`].
    pub fn hand_over<J: NodeNaming, R: Wait>(
        &mut self,
        rt: &R,
        node: &mut NodeState<H, J>,
        out: &mut Vec<u8>,
    ) -> Result<Handed, Memory>
        ensures ok { IfOk result (λ answer. HandsOver (HandsOut H.linked H.nodes H.config)
            self.old answer self.new out.old.items out.new.items) }

        // All that the node queued for the port, and nothing else.
        ensures bytes { IsNextTap self.old node.old → OnOk result (out.new.items
            ≡ out.old.items ++ pending_bytes (listed_at self.old.port node.old.node.core)) }
        ensures left { IsNextTap self.old node.old → OnOk result (node.new ≡ record node.old {
          node = record node.old.node { core = hands_over self.old.port node.old.node.core };
          log = node.new.log;
          counts = counts_after node.old.counts self.old.port
              (length (pending_bytes (listed_at self.old.port node.old.node.core)));
        }) }

        // Another tap took bytes of the port, or it is none of the node's ports.
        ensures refused { (IsNextTap self.old node.old → ⊥) →
            (IsOk result) × (self.new ≡ self.old) × (node.new ≡ node.old)
            × (out.new.items ≡ out.old.items) }

        // Running out of memory changes nothing.
        ensures same { OnErr result (self.new ≡ self.old) }
        ensures kept { OnErr result (node.new ≡ node.old) }
        ensures err { OnErr result (out.new.items ≡ out.old.items) }
    {
        if self.is_next(node) {
            self.hand_over_next(rt, node, out)
        } else {
            Ok(Handed::Closed)
        }
    }

    // Returns true if the node counts at the port just what was handed over by this tap.
    fn is_next<J: NodeNaming>(&self, node: &NodeState<H, J>) -> bool
        ensures { IsTrue result ↔ IsNextTap self.now node.now }
    {
        node.number() == self.number && node.handed_at(self.port) == Some(self.handed)
    }

    // Appends the bytes that the node queued for the port, and counts them.
    fn hand_over_next<J: NodeNaming, R: Wait>(
        &mut self,
        rt: &R,
        node: &mut NodeState<H, J>,
        out: &mut Vec<u8>,
    ) -> Result<Handed, Memory>
        requires { IsNextTap self.old node.old }
        ensures ok { IfOk result (λ answer. HandsOver (HandsOut H.linked H.nodes H.config)
            self.old answer self.new out.old.items out.new.items) }
        ensures bytes { OnOk result (out.new.items
            ≡ out.old.items ++ pending_bytes (listed_at self.old.port node.old.node.core)) }
        ensures left { OnOk result (node.new ≡ record node.old {
          node = record node.old.node { core = hands_over self.old.port node.old.node.core };
          log = node.new.log;
          counts = counts_after node.old.counts self.old.port
              (length (pending_bytes (listed_at self.old.port node.old.node.core)));
        }) }
        ensures same { OnErr result (self.new ≡ self.old) }
        ensures kept { OnErr result (node.new ≡ node.old) }
        ensures err { OnErr result (out.new.items ≡ out.old.items) }
    {
        // By what both know, the tap has all that the node handed over there: it is as many bytes.
        node.is_on_record();
        let mut known = self.seen.again();
        known.learn(&node.seen());
        let before = out.len();
        let handed = node.outgoing(rt, self.port, out)?;
        self.handed = self.handed.saturating_add((out.len() - before) as u64);
        self.seen = node.seen();
        Ok(handed)
    }
}
