// Reading the tables of a frozen broker.

ghost use Rattle.std.specs.Prelude.{◌≡◌, ◌<◌, ◌≤◌, [], length, true, false, IfOk, IsOk};
ghost use Rattle.std.specs.BTreeMap.{get};
ghost use Rattle.std.specs.Cmp.Lexicographic.{slice_cmp};
ghost use Rattle.std.specs.Ordering.{nat_cmp};
ghost use Rattle.packet_base.specs.Outcome.{Gives, IsOutOfMemory, Reads};
ghost use Rattle.packet_base.specs.Readers.{number_at};
ghost use Rattle.session_base.specs.Counted.{counted_items_at, items_after, last_of, AddsItem};
ghost use Rattle.subs_base.specs.Content.{last_qos_in, no_subscriptions};
ghost use Rattle.subs_base.specs.ListIndex.{content_of};
ghost use Rattle.broker_base.specs.form.Form.{broker_at, retained_at};
ghost use Rattle.broker_base.specs.form.Follows.{is_after, topic_follows};
ghost use Rattle.broker_base.specs.form.Needs.{counts_some, needs_to_thaw};
ghost use Rattle.broker.specs.tables.Tables.{IsTied, state_in};
ghost use Rattle.retained.specs.Retained.{IsRising};
ghost use Rattle.broker.specs.Inside.{AreOwned, state_read, all_put};

use crate::one_session::ClientRow;
use crate::row_readers::{read_head, read_topic};
use crate::rows::Rows;
use crate::tables::Tables;
use broker_base::form::thawed_is_in_range;
use broker_spec::Window;
use machine::Memory;
use packet_base::{ClientId, OUT_OF_MEMORY, QoS, Reader, Stop};
use retained::{MAX_TOPICS, RetainedPublication, RetainedStore};
use session::Session;
use session_base::check_form;
use std::alloc::{AllocError, Global};
use std::collections::BTreeMap;
use subs::TreeIndex;
use subs_base::{ListIndex, SubIndex};
use topics::{Filter, TopicName};

/// Returns the tables that are frozen to these bytes, or why there are none: `Shape` if the bytes
/// are not of the form, `Memory` if memory runs out, which bytes without rows do not need.
pub(crate) fn thawed_tables(alloc: Global, bytes: &[u8]) -> Result<Tables, Stop>
    ensures exact { Gives state_in result (broker_at bytes.now) }
    ensures memory { IsOutOfMemory result → needs_to_thaw bytes.now ≡ true }
    ensures tied { IfOk result IsTied }
{
    thawed_is_in_range();
    let (window, rows, retained) = read_broker(alloc, bytes)?;
    let Ok(index) = index_of(alloc, &rows.sessions) else {
        return Err(OUT_OF_MEMORY);
    };
    Ok(Tables {
        window,
        sessions: rows.sessions,
        owners: rows.owners,
        index,
        retained,
        alloc,
    })
}

// Reads the window, the sessions and the retained publications; nothing may follow them.
#[tactic(auto, unfolding(broker_base::specs::form::Form::broker_at))]
fn read_broker(alloc: Global, bytes: &[u8]) -> Result<(Window, Rows, RetainedStore), Stop>
    ensures exact { Gives state_read result (broker_at bytes.now) }
    ensures owned { IfOk result (λ read. AreOwned read.1) }
    ensures memory { IsOutOfMemory result → needs_to_thaw bytes.now ≡ true }
    ensures none { IfOk result (λ read. needs_to_thaw bytes.now ≡ false →
        read.1.sessions.entries ≡ []) }
{
    let mut reader = Reader::new(bytes);
    let window = read_head(&mut reader)?;
    let rows = Rows::read(alloc, window, &mut reader)?;
    let retained = read_retained(alloc, &mut reader)?;
    reader.end()?;
    Ok((window, rows, retained))
}

// ---- what is retained

// Reads the retained publications: their count, and as many topics in ascending order.
#[tactic(auto, unfolding(session_base::specs::Counted::counted_items_at, session_base::specs::Counted::items_after))]
fn read_retained(alloc: Global, reader: &mut Reader) -> Result<RetainedStore, Stop>
    ensures exact { Reads (λ value. value) result reader.new
        (counted_items_at number_at topic_follows retained_at MAX_TOPICS reader.old) }
    ensures memory { IsOutOfMemory result →
        counts_some MAX_TOPICS (number_at reader.old) ≡ true }
{
    let count = reader.number()?;
    check_form(usize::from(count) <= MAX_TOPICS)?;
    if count == 0 {
        return Ok(RetainedStore::new(alloc));
    }
    read_topics(alloc, count, reader)
}

// Reads this many topics with their publications.
fn read_topics(alloc: Global, count: u16, reader: &mut Reader) -> Result<RetainedStore, Stop>
    requires { count ≤ MAX_TOPICS }
    ensures { Reads (λ value. value) result reader.new
        (items_after topic_follows retained_at count [] reader.old) }
{
    let mut retained = RetainedStore::new(alloc);
    for _ in 0..count {
        let (topic, kept) = read_topic(alloc, reader)?;
        add_topic(&mut retained, topic, kept)?;
    }
    Ok(retained)
}

// Appends a topic; `Shape` unless it is above the last one.
fn add_topic(
    retained: &mut RetainedStore,
    topic: TopicName,
    kept: RetainedPublication,
) -> Result<(), Stop>
    requires { length retained.old < MAX_TOPICS }
    ensures { AddsItem topic_follows retained.old (topic, kept) result retained.new }
{
    check_form(is_after(retained, &topic))?;
    match retained.keep(topic, kept) {
        Ok(()) => Ok(()),
        Err(_) => Err(OUT_OF_MEMORY),
    }
}

// Returns true if the topic is above the last one.
fn is_after(retained: &RetainedStore, topic: &TopicName) -> bool
    ensures test { result ≡ is_after (last_of retained.now) topic.now }
    ensures rising { IsRising retained.now }
{
    match retained.iter().next_back() {
        Some((last, _)) => last < topic,
        None => true,
    }
}

// ---- the index of subscriptions

// Returns the index of the subscriptions of all sessions.
fn index_of(alloc: Global, sessions: &BTreeMap<ClientId, ClientRow>) -> Result<TreeIndex, Memory>
    ensures content { IfOk result
        (λ index. content_of index ≡ all_put sessions.now.entries no_subscriptions) }
    ensures nothing { sessions.now.entries ≡ [] → IsOk result }
{
    if sessions.is_empty() {
        return Ok(TreeIndex::new(alloc));
    }
    let mut list = ListIndex::new(alloc);
    for (client, row) in sessions {
        list.put(client, filters_of(alloc, &row.state)?)?;
    }
    TreeIndex::of_list(alloc, list)
}

// Returns a session's subscriptions in the order of the filters' bytes.
fn filters_of(alloc: Global, session: &Session) -> Result<BTreeMap<Filter, QoS>, AllocError>
    ensures { IfOk result
        (λ filters. get (slice_cmp nat_cmp) filters ≡ last_qos_in session.now.subscriptions) }
{
    let granted = subscriptions_of(alloc, session)?;
    let filters = BTreeMap::from_iter(alloc, granted)?;
    Ok(filters)
}

// Copies a session's subscriptions, in the order in which they were first granted.
fn subscriptions_of(alloc: Global, session: &Session) -> Result<Vec<(Filter, QoS)>, AllocError>
    ensures { IfOk result (λ granted. granted.items ≡ session.now.subscriptions) }
{
    let mut granted = Vec::with_capacity(alloc, session.subscription_count())?;
    for (filter, qos) in session.subscriptions() {
        granted.push((filter.clone()?, *qos))?;
    }
    Ok(granted)
}
