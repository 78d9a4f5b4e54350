// What was served of a run of linked nodes.

use crate::node_threads::NodeReport;
use run_history::RunLog;

/// What a node did whose other nodes and master are in other programs: the log of its run, which
/// exists in proofs alone, and its report.
#[derive(Drop)]
pub struct LinkedRun {
    /// The log of the run.
    pub log: RunLog,
    /// The fate of the items that were sent to the node.
    pub report: NodeReport,
}
