// Finding the retained topics that a filter matches.

ghost use Rattle.std.specs.Prelude.{
  ◌≡◌,
  ◌++◌,
  [],
  length,
  take,
  true,
  IsOk,
  OnOk,
  OnErr,
  IfSome,
};
ghost use Rattle.std.specs.BTreeMap.Range.{IsLeBy, IsLtBy};
ghost use Rattle.std.specs.Range.Bound.{IsForward};
ghost use Rattle.std.specs.Cmp.Lexicographic.{slice_cmp};
ghost use Rattle.std.specs.Ordering.{nat_cmp};
ghost use Rattle.topics.specs.Text.{has_no_wildcard};
ghost use Rattle.retained.specs.Retained.{matching_entries};
ghost use Rattle.retained.specs.Inside.{IsFront, StandsBefore, IsAround, HoldsMatches};

use crate::retained_publication::RetainedPublication;
use std::alloc::{AllocError, Global};
use std::collections::BTreeMap;
use std::ops::Bound;
use topics::{Filter, TopicName, has_no_wildcard, matches};

/// Appends the matching topics. A filter without wildcards is looked up; any other is compared with
/// the topics that begin with its levels before the first wildcard. If memory runs out, some of
/// them may have been appended.
pub(crate) fn append_matching(
    topics: &BTreeMap<TopicName, RetainedPublication>,
    filter: &Filter,
    entries: &mut Vec<(TopicName, RetainedPublication)>,
) -> Result<(), AllocError>
    ensures ok { OnOk result
        (entries.new.items ≡ entries.old.items ++ matching_entries topics.now.entries filter.now) }
    ensures err { OnErr result
        (entries.old.items ≡ take (length entries.old.items) entries.new.items) }
    ensures nothing { matching_entries topics.now.entries filter.now ≡ [] → IsOk result }
{
    match filter.as_topic() {
        Ok(Some(topic)) => append_topic(topics, topic, entries),
        // Where the text cannot be shared, the filter is matched with all topics.
        Ok(None) | Err(_) => append_in_range(topics, filter, entries),
    }
}

// Appends the topic if it is in the store.
fn append_topic(
    topics: &BTreeMap<TopicName, RetainedPublication>,
    topic: TopicName,
    entries: &mut Vec<(TopicName, RetainedPublication)>,
) -> Result<(), AllocError>
    requires { has_no_wildcard topic ≡ true }
    ensures ok { OnOk result
        (entries.new.items ≡ entries.old.items ++ matching_entries topics.now.entries topic) }
    ensures err { OnErr result (entries.new.items ≡ entries.old.items) }
    ensures nothing { matching_entries topics.now.entries topic ≡ [] → IsOk result }
{
    // This call shows that the topics are in order.
    let _len = topics.len();
    if let Some(kept) = topics.get(&topic) {
        entries.push((topic, kept.clone()?))?;
    }
    Ok(())
}

// Appends the matching topics. Looks only at those that begin with the filter's levels before its
// first wildcard.
fn append_in_range(
    topics: &BTreeMap<TopicName, RetainedPublication>,
    filter: &Filter,
    entries: &mut Vec<(TopicName, RetainedPublication)>,
) -> Result<(), AllocError>
    ensures ok { OnOk result
        (entries.new.items ≡ entries.old.items ++ matching_entries topics.now.entries filter.now) }
    ensures err { OnErr result
        (entries.old.items ≡ take (length entries.old.items) entries.new.items) }
    ensures nothing { matching_entries topics.now.entries filter.now ≡ [] → IsOk result }
{
    let bounds = bounds_of(*entries.allocator(), filter.as_str());
    for (topic, kept) in topics.range(bounds) {
        if matches(filter, topic) {
            entries.push((topic.clone()?, kept.clone()?))?;
        }
    }
    Ok(())
}

// Returns the range of topics that the filter may match; it is unbounded if no level comes before
// the first wildcard, or memory runs out.
#[tactic(auto, using(crate::proofs::InRange::holds_within, crate::proofs::InRange::forward))]
fn bounds_of(alloc: Global, filter: &str) -> (Bound<TopicName>, Bound<TopicName>)
    ensures forward { IsForward (IsLeBy (slice_cmp nat_cmp)) (IsLtBy (slice_cmp nat_cmp))
        result.0 result.1 }
    ensures holds { HoldsMatches filter.now result.0 result.1 }
{
    match ends_of(alloc, filter) {
        Some((first, end)) => (Bound::Included(first), Bound::Excluded(end)),
        None => (Bound::Unbounded, Bound::Unbounded),
    }
}

// Returns the levels before the first wildcard as a topic, and the least topic above all those that
// begin with these levels and a `/`.
fn ends_of(alloc: Global, filter: &str) -> Option<(TopicName, TopicName)>
    ensures { IfSome result (λ ends. IsAround filter.now ends.0 ends.1) }
{
    let front = literal_front(filter)?;
    let first = TopicName::new(alloc, front).ok()?;
    // The byte after `/` is `0`.
    let mut text = String::from_str(alloc, front).ok()?;
    text.push_str("0").ok()?;
    let end = TopicName::new(alloc, text.as_str()).ok()?;
    Some((first, end))
}

// Returns the levels before the first wildcard, if there are any.
fn literal_front(filter: &str) -> Option<&str>
    ensures { IfSome result (λ front. StandsBefore front.now filter.now) }
{
    let front = front_part(filter)?;
    if !has_no_wildcard(front.as_bytes()) {
        return None;
    }
    Some(front)
}

// Returns what comes before a level that begins with a wildcard: the first `+`, or if there is none
// the first `#`.
fn front_part(filter: &str) -> Option<&str>
    ensures { IfSome result (λ front. IsFront front.now filter.now) }
{
    if let Some((front, _)) = filter.split_once("/+") {
        return Some(front);
    }
    let (front, _) = filter.split_once("/#")?;
    Some(front)
}
