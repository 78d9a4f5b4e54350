// What was served.

use crate::node_threads::NodeReport;
use run_history::RunLog;

/// What the nodes did while they were served: one run of the model, and each node's report.
#[derive(Drop)]
pub struct ServedRun {
    /// The log of the run, which exists in proofs alone.
    pub log: RunLog,
    /// The reports, in the order of the nodes' numbers.
    pub reports: Vec<NodeReport>,
}
