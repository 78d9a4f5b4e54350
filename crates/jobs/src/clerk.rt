// What an operator is told of orders and nodes, and the record of orders.

use crate::looks::{Change, Look};
use crate::order_record::{Assigned, NODES, OrderRecord};
use crate::teller::Teller;
use ballot_base::Config;
use command_line::ListeningNode;
use log::LevelFilter;
use notices::Notice;
use post::Cluster;
use run_history::RunNaming;
use std::alloc::{AllocError, Global};
use std::io::Write;
use std::sync::Wait;
use std::time::Clock;

/// Records orders, looks at the nodes, and tells what is new. No clause says what is told or
/// recorded.
#[derive(Drop)]
pub(crate) struct Clerk<'a, 'b, E> {
    /// The nodes that are served.
    pub(crate) nodes: &'a [ListeningNode],
    /// What orders did.
    pub(crate) record: OrderRecord,
    teller: Teller<'b, E>,
    // What the last look at each node showed, by its number.
    looks: [Look; NODES],
}

impl<'a, 'b, E: Write> Clerk<'a, 'b, E> {
    /// Returns the clerk of these nodes, which open in this configuration. Fails only if memory
    /// runs out.
    pub(crate) fn new<R: Clock>(
        rt: &R,
        alloc: Global,
        nodes: &'a [ListeningNode],
        first: &Config,
        filter: LevelFilter,
        faults: &'b mut E,
    ) -> Result<Clerk<'a, 'b, E>, AllocError> {
        let record = OrderRecord::new(alloc, first)?;
        Ok(Clerk {
            nodes,
            record,
            teller: Teller::new(rt, filter, faults),
            looks: [Look::none(); NODES],
        })
    }

    /// Returns true if a node of this number is served.
    pub(crate) fn has(&self, number: u8) -> bool {
        self.nodes.iter().any(|node| node.id == number)
    }

    /// Records and tells that an order was refused with this number.
    pub(crate) fn refused<R: Clock>(&mut self, rt: &R, order: &str, number: u8) {
        self.record.refuse(number);
        self.teller
            .tell(rt, &Notice::OrderRefused { order, number });
    }

    /// Records and tells that a ballot was given.
    pub(crate) fn assigned<R: Clock>(&mut self, rt: &R, assigned: Assigned) {
        let (ballot, primary) = (assigned.ballot, assigned.primary);
        self.record.assign(assigned);
        self.teller
            .tell(rt, &Notice::TakeoverBegun { ballot, primary });
    }

    /// Tells that a node crashed by an order.
    pub(crate) fn crashed<R: Clock>(&mut self, rt: &R, node: u8) {
        self.teller.tell(rt, &Notice::Crashed { node });
    }

    /// Looks at each node, and tells what is new there, and what was held back in earlier seconds.
    pub(crate) fn look<H: RunNaming, R: Wait + Clock>(&mut self, rt: &R, cluster: &Cluster<H>) {
        let nodes = self.nodes;
        for node in nodes {
            if let Some(status) = cluster.status(rt, node.id) {
                let change = self.change_of(node.id, Look::of(&status));
                self.tell(rt, node.id, change);
            }
        }
        self.teller.tell_held_back(rt);
    }

    // Returns what is new at a node, which now looks like this.
    fn change_of(&mut self, number: u8, now: Look) -> Option<Change> {
        let before = self.looks.get_mut(usize::from(number))?;
        let change = now.change_since(*before);
        *before = now;
        change
    }

    // Tells what is new at a node. That it crashed by an order was told before.
    fn tell<R: Clock>(&mut self, rt: &R, node: u8, change: Option<Change>) {
        match change {
            Some(Change::Stopped) if !self.record.is_crash_ordered(node) => {
                self.teller.tell(rt, &Notice::Halted { node });
            }
            Some(Change::Serves(ballot)) => {
                self.record.take_over();
                self.teller.tell(
                    rt,
                    &Notice::TakeoverActive {
                        ballot,
                        primary: node,
                    },
                );
            }
            Some(Change::Stopped) | None => {}
        }
    }
}
