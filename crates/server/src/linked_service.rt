// Serving one node whose other nodes and master are in other programs.
//
// It serves as the nodes of `serve_while` do; what its steps give for others waits at routes, for
// which the attendant is woken, and what links bring is on record as events of its run. The numbers
// below its own are opened with it: their nodes only stand there.

ghost use Rattle.std.specs.Prelude.{◌≡◌, ◌≤◌, true, IfOk, OnOk};
ghost use Rattle.server.specs.Linked.{HasAttendedLinks, IsLinkedRun, alone};

use crate::attendant::LinkAttendant;
use crate::attending::AtLinks;
use crate::ending::settle_linked;
use crate::linked_run::LinkedRun;
use crate::node_threads::NodeContexts;
use crate::serve_error::ServeError;
use crate::serving::serve_opened;
use crate::thread_starts::begin;
use ballot_base::errors::OpeningError;
use ballot_base::{Config, MAX_NUMBER, Members};
use node_base::devices::NoGate;
use post::LinkedNode;
use run_history::{OpenedRun, RunNaming};
use std::alloc::Global;
use std::marker::Brand;
use std::net::{Net, TcpStream};
use std::slice;
use std::sync::Wait;
use std::thread::Threads;
use std::time::Clock;
use streams::Listener;

/// Serves the clients of one node, that of the listener's number, while the attendant runs with it.
/// Then ends all connections, and returns what the attendant returned, and what was served. The
/// table of its cluster has so many `rows`. Ballot 1 is that of node 1 alone.
///
/// `BadMembers` comes if the number is outside 1 to 254. The other errors are those of
/// [`crate::serve_while`].
pub fn serve_linked<R, A>(
    rt: &R,
    alloc: Global,
    listener: &Listener,
    rows: usize,
    attendant: A,
) -> Result<(A::Answer, LinkedRun), ServeError>
where
    R: Threads + Wait + Clock + Sync + Net<Stream = TcpStream>,
    A: LinkAttendant,
    // It ran with the node of this listener; what it saw of the log is a prefix of the run's.
    ensures attended { IfOk result (λ served.
        HasAttendedLinks A.attends attendant listener.now.number served.1.log served.0) }

    // What the node did is a run of linked nodes, and it has a report of it.
    ensures run { IfOk result (λ served. IsLinkedRun listener.now.number served.1) }
{
    let (opened, config) = open_linked(alloc, listener.number)?;
    serve_linked_run::<Brand, R, A>(rt, alloc, listener, rows, opened, &config, attendant)
}

// Opens a run of linked nodes up to this number, in ballot 1, which is that of node 1 alone.
fn open_linked(alloc: Global, number: u8) -> Result<(OpenedRun, Config), OpeningError>
    ensures group { IfOk result (λ opened. opened.0.group
        ≡ record { nodes = number; config = alone; linked = true }) }
    ensures config { IfOk result (λ opened. opened.1 ≡ alone) }
    ensures bound { OnOk result (number ≤ MAX_NUMBER) }
{
    let config = Config {
        members: Members::from_slice(alloc, &[1])?,
        primary: 1,
    };
    if number > MAX_NUMBER {
        return Err(OpeningError::BadMembers);
    }
    Ok((OpenedRun::open_linked(alloc, number, &config)?, config))
}

// Serves the node of this listener in a run that has a name, and then settles the run.
fn serve_linked_run<H, R, A>(
    rt: &R,
    alloc: Global,
    listener: &Listener,
    rows: usize,
    opened: OpenedRun,
    config: &Config,
    attendant: A,
) -> Result<(A::Answer, LinkedRun), ServeError>
where
    H: RunNaming + Send + Sync,
    R: Threads + Wait + Clock + Sync + Net<Stream = TcpStream>,
    A: LinkAttendant,
    requires book { opened.book ≡ H.book }
    requires nodes { opened.group.nodes ≡ H.nodes }
    requires config { opened.group.config ≡ H.config }
    requires group { opened.group.linked ≡ H.linked }
    requires linked { H.linked ≡ true }
    requires all { H.nodes ≡ listener.now.number }
    requires bound { listener.now.number ≤ MAX_NUMBER }
    requires alone { H.config ≡ alone }
    requires same { config.now ≡ H.config }
    ensures attended { IfOk result (λ served.
        HasAttendedLinks A.attends attendant listener.now.number served.1.log served.0) }
    ensures run { IfOk result (λ served. IsLinkedRun listener.now.number served.1) }
{
    let (links, maker, log) = opened.named_linked::<H>();
    let carrier = attendant.parker();
    let node = LinkedNode::new(alloc, listener.number, config, rows, links, &log, carrier)?;
    let start = begin(rt, 1)?;
    let contexts = NodeContexts::of_links(&node, slice::from_ref(listener), start);
    let attendant = AtLinks {
        attendant,
        node: &node,
    };
    let (answer, seen, ended) = serve_opened::<H, R, NoGate, AtLinks<'_, H, A>>(
        rt, alloc, &contexts, config, maker, log, None, attendant,
    )?;
    let run = settle_linked(rt, &seen, ended)?;
    Ok((answer, run))
}
