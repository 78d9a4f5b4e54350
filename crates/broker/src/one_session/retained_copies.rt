// The copies of retained publications for a new subscription (MQTT 3.3.1.3, 3.8.4).

ghost use Rattle.std.specs.Prelude.{◌≡◌, ◌≤◌, ◌++◌, length, OnOk, IfOk};
ghost use Rattle.session_base.specs.Queue.{room};
ghost use Rattle.session_base.specs.Copies.{copies_left};
ghost use Rattle.session_base.specs.EntryPackets.{copies_sent};
ghost use Rattle.session_base.specs.Session.{with_queue};
ghost use Rattle.broker_spec.specs.Entries.{copies_for, queued, retained_copy};

use crate::one_session::delivery::put_copy;
use broker_spec::Window;
use machine::Halted;
use packet::{Packet, Subscription};
use packet_base::QoS;
use retained::{RetainedPublication, RetainedStore};
use session::Session;
use session_base::{MAX_ENTRIES, Publication};
use std::alloc::{AllocError, Global};
use topics::TopicName;

// Returns the copy of a retained publication: with RETAIN 1, at the lower of its QoS and the
// requested one.
fn retained_copy(asked: QoS, topic: TopicName, kept: RetainedPublication) -> Publication
    ensures { result ≡ retained_copy asked (topic, kept) }
{
    Publication {
        retain: true,
        qos: asked.lower(kept.qos),
        topic,
        payload: kept.payload,
    }
}

/// Returns the copies of the retained publications that a filter matches, in the order of the
/// topics' bytes.
pub(crate) fn copies_for(
    alloc: Global,
    retained: &RetainedStore,
    subscription: &Subscription,
) -> Result<Vec<Publication>, AllocError>
    ensures { IfOk result (λ copies. copies.items ≡ copies_for retained.now subscription.now) }
{
    let mut entries = Vec::new(alloc);
    retained.matching(&subscription.filter, &mut entries)?;
    let mut copies = Vec::new(alloc);
    for (topic, kept) in entries {
        copies.push(retained_copy(subscription.qos, topic, kept))?;
    }
    Ok(copies)
}

/// Returns how many of these copies are queued: those at QoS 1 and 2.
pub(crate) fn queued_count(copies: &[Publication]) -> usize
    ensures { result ≡ length (queued copies.now) }
{
    let mut many = 0;
    for copy in copies {
        if copy.qos != QoS::AtMostOnce {
            many += 1;
        }
    }
    many
}

/// Adds the copies one by one to the session of a connected client.
pub(crate) fn put_copies(
    session: &mut Session,
    window: Window,
    copies: Vec<Publication>,
    sent: &mut Vec<Packet>,
) -> Result<(), Halted>
    requires room { length (queued copies.items) ≤ room MAX_ENTRIES session.old.queue }
    ensures state { OnOk result
        (session.new ≡ with_queue (copies_left window copies.items session.old.queue) session.old) }
    ensures sends { OnOk result
        (sent.new.items ≡ sent.old.items ++ copies_sent window copies.items session.old.queue) }
{
    for copy in copies {
        put_copy(session, window, copy, sent)?;
    }
    Ok(())
}
