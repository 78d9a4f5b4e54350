// What no inbox may refuse: the one item of its one lane is sent, and then it is taken.

ghost use Rattle.std.specs.Prelude.{◌≡◌, []};

use mailbox::{Inbox, Lane, Naming, Receiver};
use std::marker::Brand;
use std::sync::Wait;
use std::test::Fail;

// Sends an item by the one lane of an unused inbox, and takes it. The receipts say that there is
// room for it, and then that it was sent. If a call looked at nothing, this could not be proved.
fn echo<J: Naming, R: Wait>(
    rt: &R,
    lane: &mut Lane<u64, J>,
    receiver: &mut Receiver<u64, J>,
    item: u64,
) -> (u8, u64)
    requires receiver { receiver.old
        ≡ record { inbox = receiver.old.inbox; lanes = 1; taken = [] } }
    requires lane { lane.old
        ≡ record { inbox = receiver.old.inbox; lane = 0; met = 0; sent = [] } }
    ensures { result ≡ (0, item) }
{
    let room = receiver.receipt();
    if lane.send(rt, item, room).is_err() {
        unreachable!()
    }
    let sent = lane.receipt();
    let Some(taken) = receiver.take(rt, sent) else {
        unreachable!()
    };
    receiver.meet(lane);
    taken
}

// Returns what an unused inbox of one lane gives back; none without memory.
fn echo_of<J: Naming, R: Wait>(rt: &R, inbox: Inbox<u64>, item: u64) -> Option<(u8, u64)>
    requires { inbox ≡ J.inbox_of 1 }
{
    let (mut receiver, mut lanes) = inbox.named::<J>(1, 1).ok()?;
    let lane = lanes.first_mut()?;
    Some(echo(rt, lane, &mut receiver, item))
}

#[test]
fn an_unused_inbox_refuses_nothing(rt: HostRuntime) -> Result<(), Fail> {
    let inbox = Inbox::new(rt.alloc())?;
    let taken = echo_of::<Brand, HostRuntime>(&rt, inbox, 9);
    assert_eq!(rt; taken, Some((0, 9)));
    Ok(())
}
