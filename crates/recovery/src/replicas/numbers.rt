// The numbers of a recovery's messages, by arithmetic.
//
// Messages are numbered in the order of sending, and in a recovery each delivery sends a known
// number of them. So every number follows from how many messages were sent before and how many
// members there are: the list is made before any of these messages exists, and nothing is
// simulated.

ghost use Rattle.std.specs.Prelude.{◌≡◌, ◌≤◌, ◌<◌, ◌+◌, ◌*◌, ◌^◌, ◌++◌, IfOk, OnOk};
ghost use Rattle.recovery.specs.replicas.Deliveries.{asked_and_answered, numbers_from, recovery_messages};

use std::alloc::{AllocError, Global};

/// Returns the numbers of the messages that lead a new ballot to its start, in the order of
/// delivery.
///
/// `sent` messages were sent before. The member at `index` among the `members` of the active ballot
/// is asked for its log, and the new ballot has `others` members besides its primary. Fails only if
/// memory runs out.
pub fn recovery_messages(
    alloc: Global,
    sent: u64,
    members: u64,
    index: u64,
    others: u64,
) -> Result<Vec<u64>, AllocError>
    requires placed { index < members }
    requires bound { sent + members + 4 * others + 4 < 2 ^ 64 }
    ensures { IfOk result (λ numbers. numbers.items ≡ recovery_messages sent members index others) }
{
    let mut numbers = Vec::new(alloc);
    numbers.push(sent)?;
    numbers.push(sent + 1 + index)?;
    numbers.push(sent + 1 + members)?;
    push_asked(&mut numbers, sent + members + 2, others)?;
    let asked = sent + members + 2 + (others + others);
    numbers.push(asked)?;
    numbers.push(asked + 1)?;
    push_asked(&mut numbers, asked + 2, others)?;
    Ok(numbers)
}

/// Returns the numbers of the messages by which the other members hold the next command and answer,
/// if `sent` messages were sent before it. Fails only if memory runs out.
pub fn answers(alloc: Global, sent: u64, others: u64) -> Result<Vec<u64>, AllocError>
    requires { sent + 2 * others < 2 ^ 64 }
    ensures { IfOk result (λ numbers. numbers.items ≡ asked_and_answered sent others) }
{
    let mut numbers = Vec::new(alloc);
    push_asked(&mut numbers, sent, others)?;
    Ok(numbers)
}

// Appends the number of a message to each of some members, and of its answer.
fn push_asked(numbers: &mut Vec<u64>, from: u64, others: u64) -> Result<(), AllocError>
    requires { from + 2 * others < 2 ^ 64 }
    ensures { OnOk result
        (numbers.new.items ≡ numbers.old.items ++ asked_and_answered from others) }
{
    push_from(numbers, from, others)?;
    push_from(numbers, from + others, others)
}

// Appends `count` numbers, from `from` on.
fn push_from(numbers: &mut Vec<u64>, from: u64, count: u64) -> Result<(), AllocError>
    requires { from + count < 2 ^ 64 }
    ensures { OnOk result (numbers.new.items ≡ numbers.old.items ++ numbers_from from count) }
{
    for step in 0..count {
        numbers.push(from + step)?;
    }
    Ok(())
}
