// Carrying between a served node and the desk of its links.
//
// The attendant of the node is the one thread that knows the node and the desk. It brings to the
// node what came, and takes for each link what the node's steps gave, once nothing urgent lies on
// the desk for that link: so what waits is bounded as at the node's routes. What links do wakes it
// at once, and so does what the node gives for them, but for a Commit. That comes after something
// was carried, so the thread rests only briefly for a while then. A command that came before its
// turn, as after a link broke, is brought once those before it were.

ghost use Rattle.std.specs.Prelude.{◌≡◌, IfSome};
ghost use Rattle.lists.specs.Lists.{Each};
ghost use Rattle.post.specs.Linked.{IsSentTo};
ghost use Rattle.cluster_node.specs.Carrying.{row_of};

use crate::early_appends::EarlyAppends;
use ballot_base::{Message, Status};
use broker_spec::Command;
use link_threads::{FarEnd, LeftLog, LinkDesk};
use links::Parcel;
use links::link_queue::Waiting;
use post::{LinkedNode, Route};
use run_history::{RunNaming, SeenRun};
use server::LinkAttendant;
use std::alloc::Global;
use std::sync::{Arc, Wait};
use std::thread::Parker;
use std::time::Duration;

/// How long it rests at most after something was carried, in milliseconds.
const BRIEF_MILLIS: u64 = 2;

/// How many such rests follow, if nothing more is carried.
const BRIEF_RESTS: u32 = 10;

/// How long it rests at most then, in milliseconds: so old the status may be that links report.
const LONG_MILLIS: u64 = 50;

/// Carries for a node while it is served.
#[derive(Drop)]
pub(crate) struct Carrier<'a, R> {
    /// The system.
    pub(crate) rt: &'a R,
    /// What lies between the node and its links.
    pub(crate) desk: &'a LinkDesk,
}

impl<'a, R: AllocGlobal + Wait + Eprint> LinkAttendant for Carrier<'a, R> {
    type Answer = ();

    // No clause says what goes over the links: that is for the node's routes, the desk, and the
    // reader and the writer of each link.
    ghost attends = { λ _ _ _ _. Unit {0} };

    fn parker(&self) -> &Arc<Parker, Global> {
        self.desk.carrier()
    }

    fn attend<H: RunNaming + Send + Sync>(self, node: &LinkedNode<H>, _seen: &mut SeenRun<H>) {
        let Carrier { rt, desk } = self;
        carry_all(rt, desk, node);
    }
}

// Carries until the links end.
fn carry_all<H: RunNaming, R: AllocGlobal + Wait + Eprint>(
    rt: &R,
    desk: &LinkDesk,
    node: &LinkedNode<H>,
) {
    let mut early = EarlyAppends::new(rt.alloc());
    let mut brief = BRIEF_RESTS;
    for _ in rt.forever() {
        if desk.is_closing() {
            return;
        }
        if carry(rt, desk, node, &mut early) {
            brief = BRIEF_RESTS;
        }
        let millis = if brief > 0 { BRIEF_MILLIS } else { LONG_MILLIS };
        brief = brief.saturating_sub(1);
        desk.rest(rt, Duration::from_millis(millis));
    }
}

// Carries what is there, both ways. Returns true if anything was. A link has come up before it
// brings anything, so what came is taken before the news of links.
fn carry<H: RunNaming, R: AllocGlobal + Wait + Eprint>(
    rt: &R,
    desk: &LinkDesk,
    node: &LinkedNode<H>,
    early: &mut EarlyAppends,
) -> bool {
    let status = node.status(rt);
    desk.show(rt, status);
    let (parcels, left) = desk.take_all(rt);
    let mut is_some = !parcels.is_empty() || !left.is_empty();
    is_some |= tell_all(rt, desk, node);
    bring_all(rt, node, early, status, parcels);
    bring_due(rt, node, early, status);
    for log in left {
        release(rt, node, log);
    }
    is_some |= give(rt, desk, FarEnd::Master, node.master());
    for row in 0..node.rows() {
        if let Some(route) = node.row(row) {
            is_some |= give(rt, desk, FarEnd::Row(row), route);
        }
    }
    is_some
}

// Tells the node which links came up or broke. Returns true if any did.
fn tell_all<H: RunNaming, R: Wait>(rt: &R, desk: &LinkDesk, node: &LinkedNode<H>) -> bool {
    let mut is_some = tell(rt, desk, node, FarEnd::Master, node.master());
    for row in 0..node.rows() {
        if let Some(route) = node.row(row) {
            is_some |= tell(rt, desk, node, FarEnd::Row(row), route);
        }
    }
    is_some
}

// Tells the node the news of the link for which a route is, if there are any.
fn tell<H: RunNaming, R: Wait>(
    rt: &R,
    desk: &LinkDesk,
    node: &LinkedNode<H>,
    far: FarEnd,
    route: &Route<H>,
) -> bool
    requires { route.now ≡ row_of far }
{
    let Some(news) = desk.news(rt, far) else {
        return false;
    };
    if news.is_met {
        route.meet(rt, news.number);
        node.hurry(rt);
    }
    if news.is_parted {
        route.part(rt, news.number);
    }
    true
}

// Brings what came to the node, in order, but for what came too early.
fn bring_all<H: RunNaming, R: Wait + Eprint>(
    rt: &R,
    node: &LinkedNode<H>,
    early: &mut EarlyAppends,
    status: Status,
    parcels: Vec<Parcel>,
) {
    for parcel in parcels {
        bring(rt, node, early, status, parcel);
    }
}

// Brings to the node what came too early, and whose turn has come.
fn bring_due<H: RunNaming, R: Wait>(
    rt: &R,
    node: &LinkedNode<H>,
    early: &mut EarlyAppends,
    status: Status,
) {
    for _ in 0..u64::MAX {
        let Some(message) = early.take_due(status) else {
            return;
        };
        node.bring(rt, message);
    }
}

// Brings a message to the node, unless it came too early.
fn bring_in_turn<H: RunNaming, R: Wait>(
    rt: &R,
    node: &LinkedNode<H>,
    early: &mut EarlyAppends,
    status: Status,
    message: Message<Command>,
) {
    if let Some(message) = early.admit(status, message) {
        node.bring(rt, message);
    }
}

// Brings a parcel to the node. A Welcome says nothing new, and no Report comes this way. An order
// for which there is no memory is lost, and said to be.
fn bring<H: RunNaming, R: Wait + Eprint>(
    rt: &R,
    node: &LinkedNode<H>,
    early: &mut EarlyAppends,
    status: Status,
    parcel: Parcel,
) {
    match parcel {
        Parcel::Message(message) => bring_in_turn(rt, node, early, status, message),
        Parcel::Expel(client) => {
            if node.expel(rt, &client).is_err() {
                name_lost(rt, "expel");
            }
        }
        Parcel::Crash => {
            if node.crash(rt).is_err() {
                name_lost(rt, "crash");
            }
        }
        Parcel::Welcome(_) | Parcel::Report(_) => {}
    }
}

// Names an order that was lost on standard error.
fn name_lost<R: Eprint>(rt: &R, order: &str) {
    // There is nowhere else to print it.
    let _ = eprintln!(rt; "vcluster: the order {order} was lost: out of memory");
}

// Lets the node give a log again that left long ago.
fn release<H: RunNaming, R: Wait>(rt: &R, node: &LinkedNode<H>, log: LeftLog) {
    match log.far {
        FarEnd::Master => node.master().sent(rt, log.number, log.name),
        FarEnd::Row(row) => {
            if let Some(route) = node.row(row) {
                route.sent(rt, log.number, log.name);
            }
        }
    }
}

// Puts on the desk what waits for a link, if that has none. Returns true if there was anything.
fn give<H: RunNaming, R: AllocGlobal + Wait>(
    rt: &R,
    desk: &LinkDesk,
    far: FarEnd,
    route: &Route<H>,
) -> bool
    requires { route.now ≡ row_of far }
{
    let Some(number) = desk.wants(rt, far) else {
        return false;
    };
    match waiting(rt, route, number) {
        Some(taken) if !taken.is_empty() => {
            desk.put(rt, far, number, taken);
            true
        }
        _ => false,
    }
}

// Takes what waits for the node of this number, each of which was sent to it in the node's run.
fn waiting<H: RunNaming, R: AllocGlobal + Wait>(
    rt: &R,
    route: &Route<H>,
    number: u8,
) -> Option<Vec<Waiting<Command>>>
    ensures { IfSome result (λ taken.
        Each (IsSentTo H.linked H.nodes H.config number) taken.items) }
{
    route.take(rt, rt.alloc(), number)
}
