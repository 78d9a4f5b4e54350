// Runs that have opened.

ghost use Rattle.std.specs.Prelude.{◌≡◌, false};
ghost use Rattle.agreement.specs.MasterState.{opening_master};
ghost use Rattle.ballot_base.specs.LawfulConfig.{max_node};

use ballot_base::errors::OpeningError;
use ballot_base::{Config, Members};
use master::Master;
use run_history::OpenedRun;
use std::alloc::Global;

/// The run of a group of two nodes that has just opened, without a name: its master, and the
/// configuration of ballot 1.
#[derive(Drop)]
pub(crate) struct Opened {
    pub(crate) run: OpenedRun,
    pub(crate) master: Master,
    pub(crate) config: Config,
    pub(crate) ghost nodes: { run.group.nodes ≡ 2 },
    pub(crate) ghost same: { run.group.config ≡ config },
    pub(crate) ghost own: { run.group.linked ≡ false },
    pub(crate) ghost opens: { master ≡ opening_master max_node config },
}

/// Opens the run of two nodes. Ballot 1 has these members, and node 1 is its primary.
pub(crate) fn open_two(alloc: Global, members: &[u8]) -> Result<Opened, OpeningError> {
    let config = Config {
        members: Members::from_slice(alloc, members)?,
        primary: 1,
    };
    let (run, master) = OpenedRun::open(alloc, 2, &config)?;
    Ok(Opened {
        run,
        master,
        config,
    })
}
