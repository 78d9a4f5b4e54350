// The other members of a ballot, and the progress of each that a primary tracks.

ghost use Rattle.std.specs.Prelude.{◌≡◌, IfOk};
ghost use Rattle.ballot_base.specs.Replica.{others, progress_at};
ghost use Rattle.ballot_base.specs.Service.{least, raised, raised_progress};

use crate::Progress;
use machine::Memory;
use std::alloc::Global;

/// Returns the members other than `id`.
pub fn others_of(alloc: Global, id: u8, members: &[u8]) -> Result<Vec<u8>, Memory>
    ensures { IfOk result (λ them. them.items ≡ others id members.now) }
{
    let mut them = Vec::new(alloc);
    for member in members {
        if *member != id {
            them.push(*member)?;
        }
    }
    Ok(them)
}

/// Removes a member from a list.
pub fn forget(member: u8, members: &mut Vec<u8>)
    ensures { members.new.items ≡ others member members.old.items }
{
    members.retain(|other| *other != member);
}

/// Returns a progress of `held` places for each member other than `id`.
pub fn progress_of_others(
    alloc: Global,
    held: u64,
    id: u8,
    members: &[u8],
) -> Result<Vec<Progress>, Memory>
    ensures { IfOk result (λ progress. progress.items ≡ progress_at held (others id members.now)) }
{
    let mut progress = Vec::new(alloc);
    for member in members {
        if *member != id {
            progress.push(Progress {
                member: *member,
                held,
            })?;
        }
    }
    Ok(progress)
}

/// Raises a member's progress to `held`, if it is lower.
pub fn raise(member: u8, held: u64, progress: &mut [Progress])
    ensures { progress.new ≡ raised member held progress.old }
{
    for reached in progress.iter_mut() {
        *reached = raised_progress(member, held, *reached);
    }
}

// Returns a progress, raised to `held` if it is that of `member` and lower.
fn raised_progress(member: u8, held: u64, reached: Progress) -> Progress
    ensures { result ≡ raised_progress member held reached }
{
    if reached.member != member {
        return reached;
    }
    Progress {
        member,
        held: reached.held.max(held),
    }
}

/// Returns how many places all members will hold once `member` is known to hold `held`.
pub fn least_raised(length: u64, member: u8, held: u64, progress: &[Progress]) -> u64
    ensures { result ≡ least length (raised member held progress.now) }
{
    let mut least = length;
    for reached in progress {
        least = least.min(raised_progress(member, held, *reached).held);
    }
    least
}

/// Returns how many places all members hold: the minimum of `held` and all progress.
pub fn least_held(held: u64, progress: &[Progress]) -> u64
    ensures { result ≡ least held progress.now }
{
    let mut least = held;
    for reached in progress {
        least = least.min(reached.held);
    }
    least
}
