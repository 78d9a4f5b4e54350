// Memory that is refused. `tools/refused-memory` lets each allocation of a test fail in turn; in
// the gate none fails. At most one step is counted, what was half done is undone, and the group
// continues to serve.

use super::groups::*;
use ballot_base::Effect;
use machine::{Tally, TallyCommand};
use master::{Event, Group};
use std::alloc::Global;

// Adds a command, and lets all messages come.
fn answer(group: &mut Group<Tally>, node: u8, number: u64) {
    let first = group.sent().len();
    let _ = propose(group, node, number);
    go_on(group, first);
}

// Returns true if, with one growth refused, the first command is answered as usual, or one step is
// counted.
fn is_whole_or_counted(group: &Group<Tally>) -> bool {
    let losses = group.losses();
    let counts = (group.sent().len(), group.left().len(), group.agreed_len());
    (losses == 0 && counts == (6, 1, 1) && gave(group, 0, 0, 2)) || losses == 1
}

// Returns two of three nodes, of which one at most has stopped: at that one a tick cannot happen.
fn two_that_run(group: &mut Group<Tally>) -> [u8; 2] {
    if !let_happen(group, &Event::Tick(2)) {
        [1, 3]
    } else if !let_happen(group, &Event::Tick(3)) {
        [1, 2]
    } else {
        [2, 3]
    }
}

// Assigns the next ballot to two running nodes, and answers a command there. Returns true if its
// output left.
fn let_two_take_over(group: &mut Group<Tally>, alloc: Global) -> bool {
    let [primary, backup] = two_that_run(group);
    let Ok(change) = config(alloc, &[primary, backup], primary) else {
        return false;
    };
    let first = group.sent().len();
    let _ = let_happen(group, &Event::Assign(change));
    go_on(group, first);
    let left = group.left().len();
    answer(group, primary, 3);
    group.left().len() == left.saturating_add(1)
}

// Checks that a command is answered or counted, and two nodes take over; at the second try if
// memory ran out at the first. Returns the first step that fails.
fn serve_on(group: &mut Group<Tally>, alloc: Global) -> Option<&'static str> {
    answer(group, 1, 2);
    if !is_whole_or_counted(group) {
        Some("the command is answered, or one loss is counted")
    } else if !let_two_take_over(group, alloc) && !let_two_take_over(group, alloc) {
        Some("two nodes take over and answer a command")
    } else if group.losses() > 1 {
        Some("at most one loss is counted")
    } else {
        None
    }
}

#[test]
fn a_refused_growth_is_counted(rt: HostRuntime) {
    if let Some(mut group) = opened(rt.alloc(), 3, &[1, 2, 3]) {
        assert_eq!(rt; serve_on(&mut group, rt.alloc()), None);
    }
}

// Returns the number that a command adds.
fn number_of(command: &TallyCommand) -> u64 {
    match command {
        TallyCommand::Add(number) => *number,
        TallyCommand::Start(_) => 0,
    }
}

// Returns the sum of what the first commands add.
fn sum_of(commands: &[TallyCommand], most: usize) -> u64 {
    let mut sum: u64 = 0;
    for command in commands.iter().take(most) {
        sum = sum.wrapping_add(number_of(command));
    }
    sum
}

// Returns true if a total is the answer at a place of the agreed list.
fn is_answer(group: &Group<Tally>, place: u64, total: u64) -> bool {
    let (recorded, kept) = group.agreed();
    let most = (place as usize).saturating_add(1);
    let front = sum_of(recorded, most);
    let after = sum_of(kept, most.saturating_sub(recorded.len()));
    place < group.agreed_len() && front.wrapping_add(after) == total
}

// Returns true if all outputs that left are answers at places of the agreed list.
fn are_answers(group: &Group<Tally>) -> bool {
    group.left().iter().all(|left| match left {
        Effect::Out(place, total) => is_answer(group, *place, *total),
        Effect::To(_, _) => false,
    })
}

// Proposes a command at node 1, and cuts its log; a second time if memory ran out for that.
fn propose_and_cut(group: &mut Group<Tally>) {
    answer(group, 1, 2);
    for _ in 0..2 {
        let _ = let_happen(group, &Event::Cut(1));
    }
}

// Makes node 2 the primary of both nodes. Ticks repeat what found no memory. Returns false if there
// was none for the configuration.
fn take_over(group: &mut Group<Tally>, alloc: Global) -> bool {
    let Ok(change) = config(alloc, &[1, 2], 2) else {
        return false;
    };
    let _ = let_happen(group, &Event::Assign(change));
    for _ in 0..4 {
        go_on(group, 0);
        let _ = let_happen(group, &Event::Tick(2));
    }
    true
}

// Checks that a log is cut and its snapshot goes over, or one loss is counted; what left is right
// in any case. Returns the first step that fails.
fn cut_on(group: &mut Group<Tally>, alloc: Global) -> Option<&'static str> {
    propose_and_cut(group);
    let is_given = take_over(group, alloc) || take_over(group, alloc);
    answer(group, 2, 3);
    let list = [
        TallyCommand::Add(2),
        TallyCommand::Start(2),
        TallyCommand::Add(3),
    ];
    let as_ever = agrees(group, &list) && gave(group, 1, 2, 5) && is_active(group, 2);
    if !is_given {
        Some("the master gives ballot 2")
    } else if !are_answers(group) {
        Some("each output is the answer at its place of the agreed list")
    } else if !as_ever && group.losses() != 1 {
        Some("all is as ever, or one loss is counted")
    } else {
        None
    }
}

// With one growth refused while a log is cut, or while its snapshot goes over.
#[test]
fn a_refused_cut_is_counted(rt: HostRuntime) {
    if let Some(mut group) = opened(rt.alloc(), 2, &[1]) {
        assert_eq!(rt; cut_on(&mut group, rt.alloc()), None);
    }
}
