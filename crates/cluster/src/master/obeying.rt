// Carrying out orders, and answering them.

use crate::desk::{DeskError, Keeper, State};
use crate::master::hall::Hall;
use crate::master::roster::{Roster, Seat};
use crate::master::told;
use ballot_base::errors::{OpeningError, ProposeError};
use ballot_base::{Config, MAX_NUMBER, Members};
use links::Parcel;
use machine::Memory;
use packet_base::ClientId;
use script::orders::{Answer, NO_ORDER, Order, StatusLine, order_of};
use std::io;
use std::io::{BufRead, ErrorKind, Write};
use std::sync::Wait;
use std::time::Clock;

/// After how long without a report a node is silent, in milliseconds.
const SILENT_MILLIS: u64 = 1000;

const SILENT: &str = "silent";

/// The numbers of refusals by the master: no ballot is left; the state was not kept.
const BALLOTS_SPENT: u8 = 21;

const NOT_KEPT: u8 = 25;

/// Carries out the orders of the input, and answers each, until `quit` or the end of the input.
/// The error is that of the input. No clause says what is done and printed.
pub(crate) fn obey<K, R, I, O>(
    rt: &R,
    hall: &Hall<'_, K>,
    input: &mut I,
    output: &mut O,
) -> io::Result<()>
where
    K: Keeper,
    R: AllocGlobal + Wait + Clock,
    I: BufRead,
    O: Write,
{
    for _ in rt.forever() {
        let mut line = String::new(rt.alloc());
        match input.read_line(&mut line) {
            Ok(0) => return Ok(()),
            Ok(_) => match answer_to(rt, hall, line.as_str().trim_end_matches('\n')) {
                Some(text) => print(text.as_slice(), output),
                None => return Ok(()),
            },
            Err(error) if error.kind() == ErrorKind::InvalidData => refuse(output, NO_ORDER),
            Err(error) => return Err(error),
        }
    }
    unreachable!()
}

// Prints an answer. The master goes on even if nothing can be printed.
fn print<O: Write>(text: &[u8], output: &mut O) {
    let _ = output.write_all(text);
    let _ = output.flush();
}

/// Carries out the order of a line, and returns its answer; none for `quit`.
pub(crate) fn answer_to<K, R>(rt: &R, hall: &Hall<'_, K>, line: &str) -> Option<Vec<u8>>
where
    K: Keeper,
    R: AllocGlobal + Wait + Clock,
{
    let mut text = Vec::new(rt.alloc());
    match order_of(rt.alloc(), line) {
        Ok(Order::Quit) => return None,
        Ok(Order::Status) => show(rt, hall, &mut text),
        Ok(Order::Assign(config)) => assign(rt, hall, config, &mut text),
        Ok(Order::Crash(number)) => crash(rt, hall, number, &mut text),
        Ok(Order::Expel(client)) => expel(rt, hall, client, &mut text),
        Err(fault) => refuse(&mut text, fault.number()),
    }
    Some(text)
}

// Writes the line of an answer.
fn say<O: Write>(output: &mut O, answer: Answer<'_>) {
    let _ = writeln!(output, "{answer}");
}

fn refuse<O: Write>(output: &mut O, number: u8) {
    say(output, Answer::Refused(number));
}

// Assigns the next ballot, if all of its members are linked now.
fn assign<K, R, O>(rt: &R, hall: &Hall<'_, K>, config: Config, output: &mut O)
where
    K: Keeper,
    R: Wait,
    O: Write,
{
    let Config { members, primary } = config;
    if !are_linked(&hall.roster.lock(rt), &members) {
        return refuse(output, OpeningError::BadMembers.number());
    }
    let given = told::assign(&mut *hall.desk.lock(rt), members, primary);
    match given {
        Ok(ballot) => say(output, Answer::Ballot(ballot)),
        Err(error) => refuse(output, number_of(error)),
    }
}

// Returns true if each member is linked.
fn are_linked(roster: &Roster, members: &Members) -> bool {
    members
        .as_slice()
        .iter()
        .all(|member| roster.is_linked(*member))
}

// Returns the number of a refusal.
fn number_of(error: DeskError) -> u8 {
    match error {
        DeskError::BadMembers | DeskError::NeverGiven | DeskError::NumbersSpent => {
            OpeningError::BadMembers.number()
        }
        DeskError::BallotsSpent => BALLOTS_SPENT,
        DeskError::NotKept => NOT_KEPT,
    }
}

// Passes on the order to crash, and prints that or the refusal.
fn crash<K, R, O>(rt: &R, hall: &Hall<'_, K>, number: u8, output: &mut O)
where
    K: Keeper,
    R: Wait,
    O: Write,
{
    match hall.roster.lock(rt).pass(number, Parcel::Crash) {
        Ok(true) => say(output, Answer::Crashed(number)),
        Ok(false) => refuse(output, NO_ORDER),
        Err(Memory) => refuse(output, Memory.number()),
    }
}

// Passes on the order to end a client's session to the active primary, and prints that or the
// refusal.
fn expel<K, R, O>(rt: &R, hall: &Hall<'_, K>, client: ClientId, output: &mut O)
where
    K: Keeper,
    R: AllocGlobal + Wait,
    O: Write,
{
    let Ok(named) = String::from_str(rt.alloc(), client.as_str()) else {
        return refuse(output, Memory.number());
    };
    let passed = pass_to_primary(&mut hall.roster.lock(rt), client);
    match passed {
        Ok(true) => say(output, Answer::Expelled(named.as_str())),
        Ok(false) => refuse(output, ProposeError::NotActive.number()),
        Err(Memory) => refuse(output, Memory.number()),
    }
}

// Has the order to end a client's session passed on. Returns false if no node is the active
// primary.
fn pass_to_primary(roster: &mut Roster, client: ClientId) -> Result<bool, Memory> {
    match roster.primary() {
        Some(primary) => roster.pass(primary, Parcel::Expel(client)),
        None => Ok(false),
    }
}

// Prints the ballots, and the status of each node that is linked or a member of one of them.
fn show<K, R, O>(rt: &R, hall: &Hall<'_, K>, output: &mut O)
where
    K: Keeper,
    R: AllocGlobal + Wait + Clock,
    O: Write,
{
    let now = hall.now(rt);
    let mut members = Vec::new(rt.alloc());
    show_ballots(hall.desk.lock(rt).state(), &mut members, output);
    let roster = hall.roster.lock(rt);
    for number in 1..=MAX_NUMBER {
        if roster.is_linked(number) || members.contains(&number) {
            show_node(number, roster.seat(number), now, output);
        }
    }
}

// Prints the active ballot, and the one that waits, and appends the members of both.
fn show_ballots<O: Write>(state: &State, members: &mut Vec<u8>, output: &mut O) {
    let _ = write!(output, "active ballot {} members ", state.active);
    show_members(&state.members, members, output);
    if let Some((ballot, config)) = &state.waiting {
        let _ = write!(output, "waiting ballot {ballot} members ");
        show_members(&config.members, members, output);
    }
}

// Prints members with commas between them, and the end of the line, and appends them.
fn show_members<O: Write>(members: &Members, all: &mut Vec<u8>, output: &mut O) {
    let mut before = "";
    for member in members.as_slice() {
        let _ = write!(output, "{before}{member}");
        before = ",";
    }
    let _ = writeln!(output, "");
    // Without memory a silent member has no line.
    let _ = all.extend_from_slice(members.as_slice());
}

// Prints the status of one node, and its address if it was ever linked.
fn show_node<O: Write>(number: u8, seat: Option<&Seat>, now: u64, output: &mut O) {
    let Some(seat) = seat else {
        let line = silent(number);
        let _ = writeln!(output, "{line} -");
        return;
    };
    let mut line = match &seat.status {
        Some(status) => StatusLine::of(number, status),
        None => silent(number),
    };
    if now.saturating_sub(seat.reported) > SILENT_MILLIS {
        line.role = SILENT;
    }
    let address = seat.address;
    let _ = writeln!(output, "{line} {address}");
}

// Returns the line of a node that reported no status.
fn silent(number: u8) -> StatusLine<'static> {
    StatusLine {
        number,
        ballot: 0,
        role: SILENT,
        held: 0,
        committed: 0,
    }
}
