// One list of commands on several nodes: two replicas that agree, the master, and a group.

use crate::names::Names;
use anyhow::Result;
use ballot::{Body, Config, Effect, Members, Replica, Role, Status};
use machine::{Tally, TallyCommand};
use master::{Activation, Event, Group, Idle, Master};
use std::alloc::Global;

// What a replica of a tally gives: a message, or an output with its place.
type TallyEffect = Effect<TallyCommand, u64>;

/// Uses `ballot` and `master`.
pub fn run<R: Print>(rt: &R, alloc: Global) -> Result<()> {
    use_ballot(alloc)?.print(rt)?;
    use_master(alloc)?.print(rt)
}

// Opens replicas 1 and 2 in ballot 1, of which both are members, and 1 is the primary.
fn use_ballot(alloc: Global) -> Result<Names> {
    let mut names = Names::of("ballot");
    let config = config_of(alloc, &[1, 2], 1)?;
    names.uses("Config", config.is_lawful());
    let mut primary = Replica::new(alloc, 1, &config)?;
    let agreed = agree_with_new(alloc, &config, &mut primary, &mut names);
    drop(primary);
    agreed?;
    Ok(names)
}

// Returns a configuration of these members.
fn config_of(alloc: Global, members: &[u8], primary: u8) -> Result<Config> {
    let members = Members::from_slice(alloc, members)?;
    Ok(Config { members, primary })
}

// Opens the backup, and lets both agree.
fn agree_with_new(
    alloc: Global,
    config: &Config,
    primary: &mut Replica<Tally>,
    names: &mut Names,
) -> Result<()> {
    let mut backup = Replica::new(alloc, 2, config)?;
    names.uses("Replica", backup.status().role == Role::Backup);
    agree(alloc, primary, &mut backup, names);
    drop(backup);
    Ok(())
}

// The primary proposes to add 2, and its output leaves once the backup holds the command.
fn agree(
    alloc: Global,
    primary: &mut Replica<Tally>,
    backup: &mut Replica<Tally>,
    names: &mut Names,
) {
    let mut effects = Vec::new(alloc);
    let is_proposed = primary.propose(TallyCommand::Add(2), &mut effects).is_ok();
    names.uses("Replica::propose", is_proposed && effects.len() == 1);
    names.uses("Effect::To", effects.iter().all(appends_two));
    names.uses("Replica::tick", repeats(alloc, primary));
    names.uses("Message", pass(&mut effects, 2, backup));
    names.uses("Replica::on", pass(&mut effects, 1, primary));
    names.uses("Effect::Out", effects.iter().any(outputs_two));
    names.uses("Replica::status", has_committed_one(primary));
    let losses = (primary.losses(), backup.losses());
    names.uses("Replica::losses", losses == (0, 0));
}

// Returns true if a tick of the primary appends the command again.
fn repeats(alloc: Global, primary: &mut Replica<Tally>) -> bool {
    let mut effects = Vec::new(alloc);
    primary.tick(&mut effects);
    effects.iter().any(appends_two)
}

// Returns true if a replica is the active primary of ballot 1, and has committed one command.
fn has_committed_one(replica: &Replica<Tally>) -> bool {
    replica.status()
        == Status {
            ballot: 1,
            role: Role::Active,
            held: 1,
            committed: 1,
            stopped: false,
        }
}

// Returns true if an effect is the output 2 of place 0.
fn outputs_two(effect: &TallyEffect) -> bool {
    matches!(effect, Effect::Out(0, 2))
}

// Returns true if an effect is an Append of `Add(2)` at place 0 of ballot 1, for node 2.
fn appends_two(effect: &TallyEffect) -> bool {
    match effect {
        Effect::To(2, message) => {
            message.from == 1 && matches!(&message.body, Body::Append(1, 0, TallyCommand::Add(2)))
        }
        _ => false,
    }
}

// Passes the last effect, a message to this node, to its replica, whose effects follow the others.
fn pass(effects: &mut Vec<TallyEffect>, receiver: u8, replica: &mut Replica<Tally>) -> bool {
    match effects.pop() {
        Some(Effect::To(to, message)) => replica.on(message, effects).is_ok() && to == receiver,
        Some(Effect::Out(_, _)) | None => false,
    }
}

// Uses a master, and then a group of two replicas with a master of its own.
fn use_master(alloc: Global) -> Result<Names> {
    let mut names = Names::of("master");
    let mut master = Master::new(Members::from_slice(alloc, &[1])?, 1)?;
    names.uses("Master", master.active() == (1, [1].as_slice()));
    change(alloc, &mut master, &mut names);
    drop(master);
    let mut group = Group::opening(alloc, 2, Members::from_slice(alloc, &[1, 2])?, 1)?;
    names.uses("Group::opening", group.agreed_len() == 0);
    let played = play(alloc, &mut group, &mut names);
    drop(group);
    played?;
    Ok(names)
}

// Ballot 2 is superseded by ballot 3, which becomes the active one.
fn change(alloc: Global, master: &mut Master, names: &mut Names) {
    let is_assigned = assign(alloc, master, &[1, 2], 1) == Ok(2)
        && assign(alloc, master, &[2], 2) == Ok(3);
    let is_activated = master.activate(2) == Activation::Superseded
        && master.activate(3) == Activation::Activated
        && master.activate(3) == Activation::Activated
        && master.activate(1) == Activation::Superseded;
    let is_refused = assign(alloc, master, &[2, 1], 1) == Err(20)
        && assign(alloc, master, &[], 1) == Err(20)
        && assign(alloc, master, &[1], 2) == Err(20);
    names.uses("Master::assign", is_assigned && is_refused);
    names.uses("Master::activate", is_activated);
    names.uses("Master::active", master.active() == (3, [2].as_slice()));
}

// Returns the ballot that these members get, or the number of the refusal.
fn assign(alloc: Global, master: &mut Master, members: &[u8], primary: u8) -> Result<u64, u8> {
    match Members::from_slice(alloc, members) {
        Ok(members) => master
            .assign(members, primary)
            .map_err(|error| error.number()),
        Err(error) => Err(error.number()),
    }
}

// Node 1 proposes to add 2, node 2 holds it, and node 1 crashes before the next ballot begins.
fn play(alloc: Global, group: &mut Group<Tally>, names: &mut Names) -> Result<()> {
    let config = config_of(alloc, &[2], 2)?;
    names.uses("Event::Propose", step(group, proposal()) == Ok(()));
    let deliveries = [Event::Deliver(0), Event::Deliver(1)];
    group.run(&deliveries);
    drop(deliveries);
    names.uses("Event::Deliver", group.sent().len() == 3);
    names.uses("Group::run", group.active() == (1, [1, 2].as_slice()));
    names.uses("Group::agreed", is_two(group.agreed()));
    names.uses("Group::agreed_len", group.agreed_len() == 1);
    names.uses("Group::left", matches!(group.left(), [Effect::Out(0, 2)]));
    names.uses("Event::Tick", step(group, Event::Tick(2)) == Ok(()));
    names.uses("Event::Crash", step(group, Event::Crash(1)) == Ok(()));
    names.uses("Idle", step(group, proposal()) == Err(Idle));
    let is_right = step(group, Event::Assign(config)) == Ok(());
    names.uses("Event::Assign", is_right);
    names.uses("Group::step", group.active().0 == 1);
    names.uses("Group::losses", group.losses() == 0);
    Ok(())
}

// Node 1 is to add 2.
fn proposal() -> Event<TallyCommand> {
    Event::Propose(1, TallyCommand::Add(2))
}

// Lets an event happen, and drops it.
fn step(group: &mut Group<Tally>, event: Event<TallyCommand>) -> Result<(), Idle> {
    let stepped = group.step(&event);
    drop(event);
    stepped
}

// Returns true if the two parts of a list are together the command `Add(2)`.
fn is_two(agreed: (&[TallyCommand], &[TallyCommand])) -> bool {
    matches!(
        agreed,
        ([TallyCommand::Add(2)], []) | ([], [TallyCommand::Add(2)])
    )
}
