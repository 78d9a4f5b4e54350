// Granting the filters of a SUBSCRIBE in its client's session (MQTT 3.8.4).

ghost use Rattle.std.specs.Prelude.{◌≡◌, ◌++◌, OnOk, IfOk};
ghost use Rattle.broker_spec.specs.Commands.{usual_limits};
ghost use Rattle.broker_spec.specs.Marks.{is_one_too_many};
ghost use Rattle.broker_base.specs.rows.CopyTheorems.{is_granted_in, subscribed_by, sent_by};
ghost use Rattle.broker_base.specs.rows.CopyTheorems.{granted_in_turn, subscribed_in_turn, sent_in_turn};

use crate::one_session::retained_copies::{copies_for, put_copies, queued_count};
use broker_spec::Window;
use machine::Halted;
use packet::{Packet, Subscription};
use retained::RetainedStore;
use session::Session;
use session_base::MAX_SUBSCRIPTIONS;

/// Handles the filters one by one: grants each or not, and adds the retained publications that
/// match a granted one to the session of the connected client. Returns which are granted.
pub fn grant_all(
    session: &mut Session,
    window: Window,
    retained: &RetainedStore,
    filters: &[Subscription],
    sent: &mut Vec<Packet>,
) -> Result<Vec<bool>, Halted>
    ensures which { IfOk result
        (λ which. which.items
        ≡ granted_in_turn usual_limits window retained.now session.old filters.now) }
    ensures state { OnOk result
        (session.new
        ≡ subscribed_in_turn usual_limits window retained.now session.old filters.now) }
    ensures sends { OnOk result
        (sent.new.items
        ≡ sent.old.items ++ sent_in_turn usual_limits window retained.now session.old filters.now) }
{
    let mut which = Vec::new(*sent.allocator());
    for subscription in filters {
        which.push(grant(session, window, retained, subscription, sent)?)?;
    }
    Ok(which)
}

// Grants a filter unless it would exceed the limit of subscriptions or the session lacks room for
// the matching retained publications; then sets the subscription and adds those publications.
fn grant(
    session: &mut Session,
    window: Window,
    retained: &RetainedStore,
    subscription: &Subscription,
    sent: &mut Vec<Packet>,
) -> Result<bool, Halted>
    ensures granted { IfOk result
        (λ granted. granted
        ≡ is_granted_in usual_limits retained.now session.old subscription.now) }
    ensures state { OnOk result
        (session.new
        ≡ subscribed_by usual_limits window retained.now session.old subscription.now) }
    ensures sends { OnOk result
        (sent.new.items
        ≡ sent.old.items ++ sent_by usual_limits window retained.now session.old subscription.now) }
{
    let copies = copies_for(*sent.allocator(), retained, subscription)?;
    if is_one_too_many(session, subscription) || session.room() < queued_count(&copies) {
        return Ok(false);
    }
    session.subscribe(subscription.filter.clone()?, subscription.qos)?;
    put_copies(session, window, copies, sent)?;
    Ok(true)
}

// Returns true if the filter would exceed the limit of subscriptions. An identical one is only
// replaced.
fn is_one_too_many(session: &Session, subscription: &Subscription) -> bool
    ensures { result ≡ is_one_too_many usual_limits session.now.subscriptions subscription.now }
{
    !session.has_subscription(&subscription.filter)
        && session.subscription_count() >= MAX_SUBSCRIPTIONS
}
