// Twelve takeovers in 20,000 events.

use super::groups::*;
use machine::{Tally, TallyCommand};
use master::{Event, Group};
use std::alloc::Global;

// How far a group has come: which message comes next, how many places are agreed, and whether these
// have only grown.
#[derive(Drop)]
struct Course {
    next: usize,
    agreed: u64,
    only_grows: bool,
}

// Does an event, which may be idle, and compares what is agreed after it.
fn step_and_compare(group: &mut Group<Tally>, course: &mut Course, event: &Event<TallyCommand>) {
    let _ = let_happen(group, event);
    let agreed = group.agreed_len();
    course.only_grows = course.only_grows && course.agreed <= agreed;
    course.agreed = agreed;
}

// Stops a node if that is asked, and gives the next ballot to three members; false if there was no
// memory for their configuration.
fn stop_and_assign(
    group: &mut Group<Tally>,
    course: &mut Course,
    alloc: Global,
    stops: Option<u8>,
    members: [u8; 3],
) -> bool {
    if let Some(node) = stops {
        step_and_compare(group, course, &Event::Crash(node));
    }
    match config(alloc, &members, members[0]) {
        Ok(config) => {
            step_and_compare(group, course, &Event::Assign(config));
            true
        }
        Err(_) => false,
    }
}

// Delivers the next ten messages, as far as they were sent.
fn come_on(group: &mut Group<Tally>, course: &mut Course) {
    let until = course.next.saturating_add(10);
    for number in course.next..until {
        step_and_compare(group, course, &Event::Deliver(number as u64));
    }
    course.next = until.min(group.sent().len());
}

// Proposes a command at a primary and at the one before it, delivers a message again, and ticks now
// and then.
fn take_some(group: &mut Group<Tally>, course: &mut Course, leader: u8, stale: u8, number: u64) {
    step_and_compare(
        group,
        course,
        &Event::Propose(leader, TallyCommand::Add(number)),
    );
    step_and_compare(group, course, &Event::Propose(stale, TallyCommand::Add(7)));
    let event = match number % 16 {
        0 => Event::Tick(leader),
        8 => Event::Tick(stale),
        _ => Event::Deliver(number.saturating_mul(5)),
    };
    step_and_compare(group, course, &event);
}

// Does 1,677 events under one primary.
fn serve(group: &mut Group<Tally>, course: &mut Course, leader: u8, stale: u8) {
    for number in 0..129 {
        take_some(group, course, leader, stale, number);
        come_on(group, course);
    }
}

// Lets another configuration take over and agree on commands with its members. Each second time its
// former primary has stopped. Returns the first step that fails.
fn serve_next(
    group: &mut Group<Tally>,
    course: &mut Course,
    alloc: Global,
    leader: u8,
) -> Option<&'static str> {
    let before = course.agreed;
    let stale = leader.saturating_sub(1);
    let stops = if leader % 2 == 0 { Some(stale) } else { None };
    let members = [leader, leader.saturating_add(1), leader.saturating_add(2)];
    let is_taken = stop_and_assign(group, course, alloc, stops, members);
    serve(group, course, leader, stale);
    if !is_taken {
        Some("there is memory for another configuration")
    } else if !is_active(group, u64::from(leader)) {
        Some("its ballot is active, and nothing is lost")
    } else if course.agreed.saturating_sub(before) <= 100 {
        Some("over 100 places are agreed in it")
    } else if !course.only_grows {
        Some("what is agreed only grows")
    } else {
        None
    }
}

// Lets twelve primaries, 2 to 13, serve one after another, each in the ballot of its own number.
// Returns the first step that fails.
fn serve_in_turn(group: &mut Group<Tally>, alloc: Global) -> Option<&'static str> {
    let mut course = Course {
        next: 0,
        agreed: 0,
        only_grows: true,
    };
    serve(group, &mut course, 1, 1);
    for leader in 2..14 {
        if let Some(step) = serve_next(group, &mut course, alloc, leader) {
            return Some(step);
        }
    }
    None
}

// More than 20,000 events, in which twelve times another configuration takes over: each second time
// its former primary has stopped, and otherwise continues for itself. Nothing is lost, what is
// agreed, asked after each event, only grows, and each primary agrees on commands with its members.
#[test]
fn takeovers_lose_nothing(rt: HostRuntime) {
    let mut fault = Some("the group opens");
    if let Some(mut group) = opened(rt.alloc(), 15, &[1, 2, 3]) {
        fault = serve_in_turn(&mut group, rt.alloc());
    }
    assert_eq!(rt; fault, None);
}
