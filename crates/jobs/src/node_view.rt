// What a monitor is shown of the nodes.

ghost use Rattle.std.specs.Prelude.{◌≡◌};
ghost use Rattle.admin.specs.View.{role_text};
ghost use Rattle.script.specs.Answers.{role_of};

use crate::clerk::Clerk;
use crate::order_record::Assigned;
use admin::{ActiveBallot, AdminView, NodeLine, Role};
use ballot_base::{MAX_NODE, Status};
use post::Cluster;
use run_history::RunNaming;
use std::alloc::{AllocError, Global};
use std::io::Write;
use std::sync::Wait;
use std::time::Clock;

// A node and what it showed last.
#[derive(Clone, Copy)]
struct Shown {
    number: u8,
    status: Status,
}

impl Shown {
    // Returns true if the node is the active primary of its ballot.
    fn is_primary(&self) -> bool {
        !self.status.stopped && self.status.role.is_active()
    }
}

/// Returns what is known of the nodes and of their orders, without a look into a node. Fails only
/// if memory runs out.
pub(crate) fn view_of<H, R, E>(
    rt: &R,
    clerk: &Clerk<'_, '_, E>,
    cluster: &Cluster<H>,
) -> Result<AdminView, AllocError>
where
    H: RunNaming,
    R: AllocGlobal + Wait + Clock,
    E: Write,
{
    let shown = shown_of(rt, clerk, cluster)?;
    let active = match ballot_of(shown.as_slice()) {
        Some(ballot) => clerk.record.assigned(ballot),
        None => None,
    };
    Ok(AdminView {
        active: active_ballot(rt.alloc(), &active)?,
        nodes: lines_of(rt.alloc(), shown.as_slice(), &active)?,
        orders: clerk.record.counts(rt.alloc())?,
        details: None,
    })
}

// Returns what each node showed last, in the order of their numbers.
fn shown_of<H, R, E>(
    rt: &R,
    clerk: &Clerk<'_, '_, E>,
    cluster: &Cluster<H>,
) -> Result<Vec<Shown>, AllocError>
where
    H: RunNaming,
    R: AllocGlobal + Wait + Clock,
    E: Write,
{
    let mut shown = Vec::new(rt.alloc());
    for number in 1..=MAX_NODE {
        if clerk.has(number) {
            if let Some(status) = cluster.status(rt, number) {
                shown.push(Shown { number, status })?;
            }
        }
    }
    Ok(shown)
}

// Returns the highest ballot of which a node is the active primary.
fn ballot_of(shown: &[Shown]) -> Option<u64> {
    let mut highest = None;
    for one in shown {
        if one.is_primary() {
            highest = highest.max(Some(one.status.ballot));
        }
    }
    highest
}

fn active_ballot(
    alloc: Global,
    active: &Option<Assigned>,
) -> Result<Option<ActiveBallot>, AllocError> {
    let Some(active) = active else {
        return Ok(None);
    };
    Ok(Some(ActiveBallot {
        number: active.ballot,
        members: active.members(alloc)?,
        primary: active.primary,
    }))
}

fn lines_of(
    alloc: Global,
    shown: &[Shown],
    active: &Option<Assigned>,
) -> Result<Vec<NodeLine>, AllocError> {
    let mut lines = Vec::new(alloc);
    for one in shown {
        lines.push(line_of(one, active))?;
    }
    Ok(lines)
}

fn line_of(shown: &Shown, active: &Option<Assigned>) -> NodeLine {
    let is_member = match active {
        Some(active) => active.has(shown.number),
        None => false,
    };
    NodeLine {
        number: shown.number,
        ballot: shown.status.ballot,
        role: node_role(&shown.status),
        is_member,
        held: shown.status.held,
        committed: shown.status.committed,
    }
}

/// Returns what a node does.
pub(crate) fn node_role(status: &Status) -> Role
    ensures { role_text result ≡ role_of status.now }
{
    if status.stopped {
        return Role::Crashed;
    }
    if status.ballot == 0 {
        return Role::None;
    }
    if status.role.is_active() {
        return Role::Primary;
    }
    if status.role.is_fetching() {
        return Role::Fetching;
    }
    if status.role.is_installing() {
        return Role::Installing;
    }
    Role::Backup
}
