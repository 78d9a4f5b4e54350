// Nodes that cut their logs, as their reports show.

use crate::clients::{Fault, join, large_publish, listen_all, named, publish_times, unless};
use ballot_base::{Config, Members};
use node_base::devices::NoGate;
use post::Cluster;
use run_history::{RunNaming, SeenRun};
use server::node_threads::NodeReport;
use server::{Attendant, serve_gated};
use std::net::{Net, TcpListener, TcpStream};
use std::sync::Wait;
use std::thread;
use std::thread::Threads;
use std::time::{Clock, Duration};
use streams::Listener;

// What a client sends to the primary, the first of some members. Then how long they serve, and
// which of them have cut their logs at the end.
struct Row {
    name: &'static str,
    members: &'static [u8],
    publications: u8,
    milliseconds: u64,
    are_cut: &'static [bool],
}

// Node 1 has its log cut after its seventh tick, 1.4 seconds from the beginning, and node 7 after
// its 49th, 9.8 seconds from there. A publication has 1,000,000 bytes of payload, so the
// seventeenth passes 16 MiB.
const ROWS: &[Row] = &[
    Row {
        name: "after its seventh tick the log of one of two nodes is cut",
        members: &[1, 7],
        publications: 1,
        milliseconds: 4_000,
        are_cut: &[true, false],
    },
    Row {
        name: "after more than 16 MiB the log of the primary is cut",
        members: &[7],
        publications: 20,
        milliseconds: 1_000,
        are_cut: &[true],
    },
    Row {
        name: "after more than 16 MiB the log of a backup is cut too",
        members: &[1, 7],
        publications: 20,
        milliseconds: 2_000,
        are_cut: &[true, true],
    },
    Row {
        name: "after less than 16 MiB no log is cut",
        members: &[7],
        publications: 10,
        milliseconds: 1_000,
        are_cut: &[false],
    },
];

#[test]
fn logs_are_cut(rt: HostRuntime) {
    for row in ROWS {
        assert_eq!(rt; first_fault_with(&rt, row), Ok(()), "{}", row.name);
    }
}

// Returns the first step that fails in a row with nodes of its own.
fn first_fault_with<R>(rt: &R, row: &Row) -> Result<(), Fault>
where
    R: AllocGlobal + Threads + Wait + Clock + Sync,
    R: Net<Listener = TcpListener, Stream = TcpStream>,
{
    let mut listeners = Vec::new(rt.alloc());
    if listen_all(rt, row.members, &mut listeners) {
        serve(rt, row, listeners.as_slice())
    } else {
        Err(Fault::new("a port is free"))
    }
}

// Returns the first step that fails in a row with the nodes of these listeners.
fn serve<R>(rt: &R, row: &Row, listeners: &[Listener]) -> Result<(), Fault>
where
    R: AllocGlobal + Threads + Wait + Clock + Sync + Net<Stream = TcpStream>,
{
    let (Ok(members), Some(first)) = (
        Members::from_slice(rt.alloc(), row.members),
        row.members.first(),
    ) else {
        return Err(Fault::new("there is memory for a ballot"));
    };
    let config = Config {
        members,
        primary: *first,
    };
    let served = serve_gated(
        rt,
        rt.alloc(),
        listeners,
        &config,
        &NoGate,
        Sending {
            rt,
            row,
            listener: listeners.first(),
        },
    );
    match served {
        Ok((sent, run)) => sent.and(unless(
            are_cut_where_wanted(run.reports.as_slice(), row.are_cut),
            "just the logs of these nodes are cut",
        )),
        Err(_) => Err(Fault::new("the nodes serve")),
    }
}

// The publications of a row, which are sent while the nodes serve.
#[derive(Drop)]
struct Sending<'a, R> {
    rt: &'a R,
    row: &'a Row,
    listener: Option<&'a Listener>,
}

impl<'a, R> Attendant for Sending<'a, R>
where
    R: AllocGlobal + Wait + Clock + Net<Stream = TcpStream>,
{
    type Answer = Result<(), Fault>;

    ghost attends = { λ _ _ _ _. Unit {0} };

    fn attend<H: RunNaming + Send + Sync>(
        self,
        _cluster: &Cluster<H>,
        _seen: &mut SeenRun<H>,
    ) -> Result<(), Fault> {
        send_all(self.rt, self.row, self.listener)
    }
}

// Sends the publications, which have to be taken, and then waits. Returns the first step that
// fails.
fn send_all<R>(rt: &R, row: &Row, listener: Option<&Listener>) -> Result<(), Fault>
where
    R: AllocGlobal + Wait + Clock + Net<Stream = TcpStream>,
{
    let Ok(large) = large_publish(rt.alloc()) else {
        return Err(Fault::new("there is memory for a publication"));
    };
    match named(join(rt, listener, b's', false), "a client comes") {
        Ok(mut stream) => send_all_on(rt, row, &mut stream, large.as_slice()),
        Err(fault) => Err(fault),
    }
}

// Does the same on a stream of the client, with this publication.
fn send_all_on<R>(rt: &R, row: &Row, stream: &mut TcpStream, large: &[u8]) -> Result<(), Fault>
where
    R: Wait + Clock,
{
    let taken = publish_times(stream, large, row.publications);
    thread::sleep(rt, Duration::from_millis(row.milliseconds));
    named(taken, "the publications are sent and taken")
}

// Returns true if the logs of these nodes were cut, and no others. A log that was cut begins at a
// higher place than the first.
fn are_cut_where_wanted(reports: &[NodeReport], are_cut: &[bool]) -> bool {
    reports.len() == are_cut.len()
        && reports
            .iter()
            .zip(are_cut)
            .all(|(report, is_cut)| (report.report.base() > 0) == *is_cut)
}
