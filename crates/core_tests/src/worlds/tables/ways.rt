// Ways out: after every event of the known courses, for members and a client, the end that is
// promised, or Idle.

use crate::worlds::tables::courses::{
    COURSES, Course, WAITS, all_hold, begun, is_kept, last_ballot, may_lead,
};
use crate::worlds::world_rows::{Action, PRESENT, Row, let_happen, named, opened};
use broker_spec::Command;
use packet_base::ClientId;
use std::alloc::Global;
use world::World;
use world_pipes::events::{EscapeError, Event};

// Lists of members: the rising ones of nodes 1 to 3, and some that no ballot may have.
const LISTS: &[&[u8]] = &[
    &[1],
    &[2],
    &[3],
    &[1, 2],
    &[1, 3],
    &[2, 3],
    &[1, 2, 3],
    &[],
    &[2, 1],
    &[2, 2],
];

const CLIENTS: &[&str] = &["a", "b", "z"];

// Checks the recovery of the world after this many rows. It is returned, if there is one, and leads
// to its end, and `Idle` is returned otherwise. Returns the first step that fails. Here and below a
// world is lent by the one function that makes it, and goes by a call of `drop`, which is proved
// once.
fn first_fault_of(
    alloc: Global,
    course: &Course,
    count: usize,
    members: &[u8],
    client: &str,
) -> Option<&'static str> {
    match begun(alloc, course) {
        Some(mut world) => {
            let step = first_fault_in(alloc, &mut world, course, count, members, client);
            drop(world);
            step
        }
        None => Some("a world opens"),
    }
}

// Does the same in a world in which nothing happened.
fn first_fault_in(
    alloc: Global,
    world: &mut World,
    course: &Course,
    count: usize,
    members: &[u8],
    client: &str,
) -> Option<&'static str> {
    let rows = course.rows.get(..count).unwrap_or(&[]);
    if !all_hold(alloc, world, rows) {
        return Some("the rows hold");
    }
    let Some(name) = named(alloc, client) else {
        return Some("there is memory for a name");
    };
    let may = may_lead(course, rows, members) && is_kept(course, count, client);
    match world.escape(members, &name) {
        Ok(way) => {
            if !may {
                Some("there is no way out")
            } else if way.len() > members.len().saturating_mul(6).saturating_add(5) {
                Some("the way has at most 6 events for each member, and 5")
            } else {
                first_fault_by(alloc, course, rows, world, way.as_slice(), &name)
            }
        }
        Err(error) => fault_without_way(error, may),
    }
}

// Returns the step that fails if no recovery is returned.
fn fault_without_way(error: EscapeError, may: bool) -> Option<&'static str> {
    if may {
        Some("there is a way out")
    } else if error == EscapeError::Idle {
        None
    } else {
        Some("there is memory for a way out")
    }
}

// Does the events of a recovery in one more world, after these rows of its course. The other world
// is there before the recovery. Returns the first step that fails.
fn first_fault_by(
    alloc: Global,
    course: &Course,
    rows: &[Row],
    before: &World,
    way: &[Event],
    client: &ClientId,
) -> Option<&'static str> {
    let ballot = last_ballot(rows).saturating_add(1);
    match begun(alloc, course) {
        Some(mut world) => {
            let step = if all_hold(alloc, &mut world, rows) {
                first_fault_at_end(before, &mut world, way, ballot, client)
            } else {
                Some("the rows hold once more")
            };
            drop(world);
            step
        }
        None => Some("one more world opens"),
    }
}

// Checks that each of the events happens, and that they lead to the promised end. Returns the first
// step that fails.
fn first_fault_at_end(
    before: &World,
    world: &mut World,
    way: &[Event],
    ballot: u64,
    client: &ClientId,
) -> Option<&'static str> {
    for event in way {
        if world.step(event).is_err() {
            return Some("each event of the way happens");
        }
    }
    if world.losses() > 0 {
        Some("no step of the way counted a loss")
    } else if world.active() != ballot {
        Some("the next ballot is active at the end")
    } else if !begins_agreed(before, world) {
        Some("what was agreed before begins what is agreed at the end")
    } else if !is_online_with_session(world, client) {
        Some("the client is online with its session at the end")
    } else {
        None
    }
}

// Returns true if a client is online with its session present.
fn is_online_with_session(world: &World, client: &ClientId) -> bool {
    match world.client(client) {
        Some(core) => core.connected() && core.present(),
        None => false,
    }
}

// Returns true if what is agreed in a world begins what is agreed in another.
fn begins_agreed(before: &World, after: &World) -> bool {
    let (first, second) = before.agreed();
    let (more, most) = after.agreed();
    before.agreed_len() <= after.agreed_len()
        && first
            .iter()
            .chain(second.iter())
            .zip(more.iter().chain(most.iter()))
            .all(|(one, other)| is_same_command(one, other))
}

// Returns true if two commands are of one kind, and say the same for a client, of a ballot.
fn is_same_command(one: &Command, other: &Command) -> bool {
    match (one, other) {
        (Command::Connect(_, client, clean), Command::Connect(_, name, is_clean)) => {
            client == name && *clean == *is_clean
        }
        (Command::Packet(_, packet), Command::Packet(_, written)) => {
            packet.packet() == written.packet()
        }
        (Command::Start(ballot), Command::Start(number)) => *ballot == *number,
        (Command::Expel(client), Command::Expel(name)) => client == name,
        (Command::Lost(_), Command::Lost(_)) => true,
        _ => false,
    }
}

// A recovery that differs from the wanted one: after how many rows and which last one, for which
// members and client. The step says what fails.
#[derive(Clone, Copy, Debug, PartialEq, Eq)]
struct Fault {
    rows: usize,
    last: Option<&'static Row>,
    members: &'static [u8],
    client: &'static str,
    step: &'static str,
}

// Returns the first recovery of a course that differs from the wanted one.
fn first_fault(alloc: Global, course: &Course) -> Option<Fault> {
    for rows in 0..course.rows.len().saturating_add(1) {
        for members in LISTS {
            for client in CLIENTS {
                if let Some(step) = first_fault_of(alloc, course, rows, members, client) {
                    return Some(Fault {
                        rows,
                        last: course.rows.get(rows.wrapping_sub(1)),
                        members: *members,
                        client: *client,
                        step,
                    });
                }
            }
        }
    }
    None
}

// The primary crashes, and then the other node too.
const CRASHED: &[Action] = &[Action::Crash(1)];

const NOBODY: &[Action] = &[Action::Crash(1), Action::Crash(2)];

// What is asked of a world in which client `a` was answered.
#[derive(Clone, Copy)]
enum Asked<'a> {
    // That the client comes back at node 2 as sole member.
    ComesBack,
    // That there is no recovery for these members and the client.
    IsIdle(&'a [u8]),
    // That an allocation that fails is reported.
    IsReported,
}

// The first step that fails, if one does.
type Answer = Result<(), &'static str>;

// Answers it after these events, for this client. None if they cannot happen, or it ran out of
// memory.
fn answer(alloc: Global, actions: &[Action], client: &str, asked: Asked<'_>) -> Option<Answer> {
    match opened(alloc, 2, &[1, 2]) {
        Some(mut world) => {
            let answer = answer_in(alloc, &mut world, actions, client, asked);
            drop(world);
            answer
        }
        None => None,
    }
}

// Does the same in a world in which nothing happened.
fn answer_in(
    alloc: Global,
    world: &mut World,
    actions: &[Action],
    client: &str,
    asked: Asked<'_>,
) -> Option<Answer> {
    if !all_hold(alloc, world, WAITS) || !let_all_happen(alloc, world, actions) {
        return None;
    }
    let name = named(alloc, client)?;
    Some(match asked {
        Asked::ComesBack => bring_back(world, &name),
        Asked::IsIdle(members) => find_no_recovery(world, members, &name),
        Asked::IsReported => lead_out_or_report(world, &name),
    })
}

// Returns this step if it fails.
fn unless(holds: bool, step: &'static str) -> Answer {
    if holds { Ok(()) } else { Err(step) }
}

// Returns true if these events can happen, one after another.
fn let_all_happen(alloc: Global, world: &mut World, actions: &[Action]) -> bool {
    for action in actions {
        if !let_happen(alloc, world, action) {
            return false;
        }
    }
    true
}

// Brings a client back at node 2 as sole member.
fn bring_back(world: &mut World, client: &ClientId) -> Answer {
    match world.escape(&[2], client) {
        Ok(way) => bring_back_by(world, way.as_slice(), client),
        Err(_) => Err("there is a way out"),
    }
}

// Brings it back by these events: before the last one its CONNACK waits, and at the end three
// commands are agreed in ballot 2.
fn bring_back_by(world: &mut World, way: &[Event], client: &ClientId) -> Answer {
    let Some((last, front)) = way.split_last() else {
        return Err("the way has events");
    };
    unless(way.len() == 10, "the way has ten events")?;
    world.run(front);
    unless(
        world.down(2) == PRESENT,
        "its CONNACK waits before the last event",
    )?;
    unless(world.step(last).is_ok(), "the last event happens")?;
    unless(
        is_online_with_session(world, client),
        "it is online with its session",
    )?;
    unless(world.agreed_len() == 3, "three commands are agreed")?;
    unless(world.active() == 2, "ballot 2 is active")?;
    unless(world.losses() == 0, "nothing was lost")
}

// Looks for a recovery for these members and this client, where there is none.
fn find_no_recovery(world: &World, members: &[u8], client: &ClientId) -> Answer {
    match world.escape(members, client) {
        Ok(_) => Err("there is no way out"),
        Err(error) => unless(error == EscapeError::Idle, "the answer is Idle"),
    }
}

// Leads a client out where an allocation may fail: then no way is returned because memory ran out,
// or a loss is counted on a way, or it leads to its end.
fn lead_out_or_report(world: &mut World, client: &ClientId) -> Answer {
    match world.escape(&[2], client) {
        Ok(way) => {
            world.run(way.as_slice());
            let is_out = world.active() == 2 && is_online_with_session(world, client);
            unless(
                world.losses() > 0 || is_out,
                "the way has its end, or a loss",
            )
        }
        Err(error) => unless(error == EscapeError::Memory, "memory ran out"),
    }
}

// For `tools/refused-memory`. Without memory for the world nothing is asked of it.
#[test]
fn a_recovery_without_memory_is_refused_or_counted(rt: HostRuntime) {
    let reported = answer(rt.alloc(), &[], "a", Asked::IsReported).unwrap_or(Ok(()));
    assert_eq!(rt; reported, Ok(()));
}

#[test]
fn a_client_comes_back(rt: HostRuntime) {
    let alloc = rt.alloc();
    let back = answer(alloc, &[], "a", Asked::ComesBack);
    assert_eq!(rt; back, Some(Ok(())), "a comes back");
    let back = answer(alloc, CRASHED, "a", Asked::ComesBack);
    assert_eq!(rt; back, Some(Ok(())), "a comes back after a crash");
    let idle = answer(alloc, CRASHED, "a", Asked::IsIdle(&[1]));
    assert_eq!(rt; idle, Some(Ok(())), "a crashed member has no way out");
    let idle = answer(alloc, &[], "z", Asked::IsIdle(&[2]));
    assert_eq!(rt; idle, Some(Ok(())), "an unknown client has no way out");
}

#[test]
fn nothing_leads_out_where_nobody_lives(rt: HostRuntime) {
    for members in LISTS {
        let idle = answer(rt.alloc(), NOBODY, "a", Asked::IsIdle(*members));
        assert_eq!(rt; idle, Some(Ok(())), "{members:?}");
    }
}

#[test]
fn each_course_has_its_recoveries(rt: HostRuntime) {
    for course in COURSES {
        let name = course.name;
        assert_eq!(rt; first_fault(rt.alloc(), course), None, "{name}");
    }
}
