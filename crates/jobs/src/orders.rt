// Orders to the nodes of a server, as lines of its input.

use crate::clerk::Clerk;
use crate::desk::{Desk, Heard};
use crate::job_error::JobError;
use crate::node_view::view_of;
use crate::order_record::Assigned;
use ballot_base::errors::ProposeError;
use ballot_base::{Config, MAX_NODE};
use master::Idle;
use packet_base::ClientId;
use post::Cluster;
use run_history::RunNaming;
use script::orders::{Answer, Order, StatusLine, WordFault, no_order, order_of};
use std::io::Write;
use std::sync::Wait;
use std::time::{Clock, Duration};

/// How long the attendant waits for an order before it looks at the nodes, in milliseconds.
const LOOK_MILLIS: u64 = 200;

/// Carries out the orders of the input, and prints an answer for each, until `quit` or the end of
/// the input. Looks at the nodes at least five times a second, and shows monitors how they are.
/// Fails only if the input cannot be read.
pub(crate) fn obey<H, R, O, E>(
    rt: &R,
    cluster: &Cluster<H>,
    desk: &Desk,
    clerk: &mut Clerk<'_, '_, E>,
    output: &mut O,
) -> Result<(), JobError>
where
    H: RunNaming,
    R: AllocGlobal + Wait + Clock,
    O: Write,
    E: Write,
{
    desk.open(rt);
    for _ in rt.forever() {
        let heard = desk.take(rt, Duration::from_millis(LOOK_MILLIS));
        let goes_on = match heard {
            Some(heard) => obey_one(rt, cluster, clerk, heard, output)?,
            None => true,
        };
        clerk.look(rt, cluster);
        if !goes_on {
            return Ok(());
        }
        desk.answered(rt);
        show_all(rt, cluster, desk, clerk);
    }
    unreachable!()
}

// Shows each monitor that wants it how the nodes are.
fn show_all<H, R, E>(rt: &R, cluster: &Cluster<H>, desk: &Desk, clerk: &Clerk<'_, '_, E>)
where
    H: RunNaming,
    R: AllocGlobal + Wait + Clock,
    E: Write,
{
    for _ in 0..desk.take_wanted(rt) {
        desk.give(rt, view_of(rt, clerk, cluster).ok());
    }
}

// Carries out the order that was read, and prints an answer. Returns false at `quit` and at the end
// of the input. Fails if the input could not be read.
fn obey_one<H, R, O, E>(
    rt: &R,
    cluster: &Cluster<H>,
    clerk: &mut Clerk<'_, '_, E>,
    heard: Heard,
    output: &mut O,
) -> Result<bool, JobError>
where
    H: RunNaming,
    R: AllocGlobal + Wait + Clock,
    O: Write,
    E: Write,
{
    let goes_on = match heard {
        Heard::Line(line) => {
            let line = line.as_str();
            obey_line(rt, cluster, clerk, without_end(line), output)
        }
        Heard::NoText => {
            refuse(rt, clerk, "", no_order().number(), output);
            true
        }
        Heard::NoMemory => {
            refuse(rt, clerk, "", WordFault::Memory.number(), output);
            true
        }
        Heard::End => false,
        Heard::Fault => return Err(JobError::Input),
    };
    let _ = output.flush();
    Ok(goes_on)
}

// Carries out the order of a line, and prints an answer. Returns false at `quit`.
fn obey_line<H, R, O, E>(
    rt: &R,
    cluster: &Cluster<H>,
    clerk: &mut Clerk<'_, '_, E>,
    line: &str,
    output: &mut O,
) -> bool
where
    H: RunNaming,
    R: AllocGlobal + Wait + Clock,
    O: Write,
    E: Write,
{
    let refused = match order_of(rt.alloc(), line) {
        Ok(Order::Quit) => return false,
        Ok(order) => answer(rt, cluster, clerk, order, output),
        Err(fault) => Some(fault.number()),
    };
    if let Some(number) = refused {
        refuse(rt, clerk, line, number, output);
    }
    true
}

// Prints, records and tells that an order is refused.
fn refuse<R, O, E>(rt: &R, clerk: &mut Clerk<'_, '_, E>, order: &str, number: u8, output: &mut O)
where
    R: Clock,
    O: Write,
    E: Write,
{
    print(Answer::Refused(number), output);
    clerk.refused(rt, order, number);
}

// Prints an answer. Serving goes on even if nothing can be printed.
fn print<O: Write>(answer: Answer<'_>, output: &mut O) {
    let _ = writeln!(output, "{answer}");
}

// Returns a line without its end.
fn without_end(line: &str) -> &str {
    line.trim_end_matches('\n')
}

// Carries out an order and prints the result, or returns the number by which it is refused.
fn answer<H, R, O, E>(
    rt: &R,
    cluster: &Cluster<H>,
    clerk: &mut Clerk<'_, '_, E>,
    order: Order,
    output: &mut O,
) -> Option<u8>
where
    H: RunNaming,
    R: Wait + Clock,
    O: Write,
    E: Write,
{
    match order {
        Order::Quit => None,
        Order::Status => {
            print_all(rt, cluster, clerk, output);
            None
        }
        Order::Assign(config) => assign(rt, cluster, clerk, config, output),
        Order::Crash(number) => crash(rt, cluster, clerk, number, output),
        Order::Expel(client) => expel(rt, cluster, &client, output),
    }
}

// Gives the next ballot, and prints that, or returns the number of the refusal.
fn assign<H, R, O, E>(
    rt: &R,
    cluster: &Cluster<H>,
    clerk: &mut Clerk<'_, '_, E>,
    config: Config,
    output: &mut O,
) -> Option<u8>
where
    H: RunNaming,
    R: Wait + Clock,
    O: Write,
    E: Write,
{
    let mut assigned = Assigned::new(0, &config);
    match cluster.assign(rt, config) {
        Ok(ballot) => {
            assigned.ballot = ballot;
            print(Answer::Ballot(ballot), output);
            clerk.assigned(rt, assigned);
            None
        }
        Err(error) => Some(error.number()),
    }
}

// Crashes a node, and prints that, or returns the number of the refusal.
fn crash<H, R, O, E>(
    rt: &R,
    cluster: &Cluster<H>,
    clerk: &mut Clerk<'_, '_, E>,
    number: u8,
    output: &mut O,
) -> Option<u8>
where
    H: RunNaming,
    R: Wait + Clock,
    O: Write,
    E: Write,
{
    clerk.record.crash(number);
    match cluster.crash(rt, number) {
        Ok(true) => {
            print(Answer::Crashed(number), output);
            clerk.crashed(rt, number);
            None
        }
        // No such node runs.
        Ok(false) => Some(Idle.number()),
        Err(error) => Some(error.number()),
    }
}

// Ends a client's session, and prints that, or returns the number of the refusal.
fn expel<H, R, O>(rt: &R, cluster: &Cluster<H>, client: &ClientId, output: &mut O) -> Option<u8>
where
    H: RunNaming,
    R: Wait + Clock,
    O: Write,
{
    match cluster.expel(rt, client) {
        Ok(true) => {
            print(Answer::Expelled(client.as_str()), output);
            None
        }
        Ok(false) => Some(ProposeError::NotActive.number()),
        Err(error) => Some(error.number()),
    }
}

// Prints the status of each node that is served, in the order of their numbers.
fn print_all<H, R, O, E>(rt: &R, cluster: &Cluster<H>, clerk: &mut Clerk<'_, '_, E>, output: &mut O)
where
    H: RunNaming,
    R: Wait + Clock,
    O: Write,
    E: Write,
{
    for number in 1..=MAX_NODE {
        if clerk.has(number) {
            if let Some(status) = cluster.status(rt, number) {
                let line = StatusLine::of(number, &status);
                let _ = writeln!(output, "{line}");
            }
        }
    }
}
