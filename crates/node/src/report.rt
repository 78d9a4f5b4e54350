// The fate of the items that were sent to a node.
//
// A report is made by the end of a node alone, and no call changes one. So whoever has a report has
// what the node counted, also of its gate, of which no clause speaks.

ghost use Rattle.std.specs.Prelude.{◌≡◌, IfOk};
ghost use Rattle.node.specs.Report.{HasCapacity};

use machine::Memory;
use mailbox::MAX_ITEMS;
use std::alloc::Global;
use std::marker::Model;
use world_base::node_core::Item;

/// The fate of the items that were sent to a node, once it takes no more. Only the end of a node
/// makes a report, and nobody can change one.
#[derive(Drop)]
pub struct Report {
    number: u8,
    taken: Vec<u64>,
    left: Vec<(u8, Item)>,
    base: u64,
    gate_missed: u64,
}

impl Model for Report {
    ghost use Rattle.node.specs.Report.{ReportView};

    ghost Value = { ReportView };

    ghost view = { λ report. record {
      number = report.number;
      taken = report.taken.items;
      left = report.left.items;
      base = report.base;
      gate_missed = report.gate_missed;
    } };
}

impl Report {
    /// Returns a report with these parts: the node's number, what was counted and left over, the
    /// base of the log, and how many takings were done at a shut gate.
    pub(crate) fn new(number: u8, space: ReportSpace, base: u64, gate_missed: u64) -> Report
        ensures { result ≡ record {
          number = number;
          taken = space.taken.items;
          left = space.left.items;
          base = base;
          gate_missed = gate_missed;
        } }
    {
        let ReportSpace { taken, left } = space;
        Report {
            number,
            taken,
            left,
            base,
            gate_missed,
        }
    }

    /// Returns the number of the node, which is that of its inbox.
    pub fn number(&self) -> u8
        ensures { result ≡ self.now.number }
    {
        self.number
    }

    /// Returns how many items of each lane were taken.
    pub fn taken(&self) -> &[u64]
        ensures { result.now ≡ self.now.taken }
    {
        self.taken.as_slice()
    }

    /// Returns the items that were not taken, in order, each with its lane.
    pub fn left(&self) -> &[(u8, Item)]
        ensures { result.now ≡ self.now.left }
    {
        self.left.as_slice()
    }

    /// Returns the base of the node's log: a snapshot stands for the places below.
    pub fn base(&self) -> u64
        ensures { result ≡ self.now.base }
    {
        self.base
    }

    /// Returns how many takings were done though the gate had not opened (saturates at 2^64 - 1).
    pub fn gate_missed(&self) -> u64
        ensures { result ≡ self.now.gate_missed }
    {
        self.gate_missed
    }
}

/// The lists of a report, allocated before they are needed.
#[derive(Drop)]
pub(crate) struct ReportSpace {
    /// A number for each lane.
    pub(crate) taken: Vec<u64>,
    /// A list with capacity for all that an inbox holds.
    pub(crate) left: Vec<(u8, Item)>,
}

impl ReportSpace {
    /// Returns space for closing a node whose inbox has this many lanes. The only error is that
    /// memory ran out.
    pub(crate) fn new(alloc: Global, lanes: usize) -> Result<ReportSpace, Memory>
        ensures { IfOk result (λ space. HasCapacity lanes space) }
    {
        Ok(ReportSpace {
            taken: Vec::from_elem(alloc, 0u64, lanes)?,
            left: Vec::with_capacity(alloc, MAX_ITEMS)?,
        })
    }
}
