// Matching a Topic Filter against a Topic Name (MQTT 4.7).
//
// Neither text is split into a list of levels. The loop drops the longest common prefix of both
// texts, then a `+` of the filter together with the level of the topic that it stands for, and so
// on; the time is linear in the bytes of both texts, and no memory is taken. This is right because
// a `+` or a `#` of a `Filter` is always a level of its own and a `TopicName` has neither: where
// the texts first differ, the filter is at a wildcard, or at `/#` with the topic at its end, or
// they do not match. That the loop decides the relation of the standard, level by level (`Matches`
// in `specs/Matching.antt`), is the theorem `matches_is_tested`.

ghost use Rattle.std.specs.Prelude.{◌≡◌, ◌≤◌, ◌||◌, ◌↔◌, IsTrue, false, length};
ghost use Rattle.topics.specs.Matching.{Matches, is_match, starts_with};
ghost use Rattle.topics.specs.Matching.{starts_with_wildcard, is_hidden};
ghost use Rattle.topics.specs.Inside.{matches_levels, IsPair, IsLeft, IsApart};
ghost use Rattle.topics.specs.Inside.{after_level, ends_match};

use crate::filter::Filter;
use crate::level::is_hash;
use crate::topic_name::TopicName;

/// Returns true if the filter matches the topic (MQTT 4.7): `#` matches any number of levels,
/// including none, `+` exactly one level, including an empty one, and any other level only itself.
/// A filter that begins with a wildcard matches no topic that begins with `$`. Takes no memory; its
/// time grows with the bytes of both texts, which no clause says.
#[tactic(auto, using(crate::proofs::MatchingIsTested::answer_tested))]
pub fn matches(filter: &Filter, topic: &TopicName) -> bool
    ensures meaning { IsTrue result ↔ Matches filter.now topic.now }
    ensures test { result ≡ is_match filter.now topic.now }
{
    is_match(filter.as_str().as_bytes(), topic.as_str().as_bytes())
}

// Returns true if the text of a filter matches that of a topic (MQTT 4.7).
fn is_match(filter: &[u8], topic: &[u8]) -> bool
    requires { IsPair filter.now topic.now }
    ensures { result ≡ is_match filter.now topic.now }
{
    !is_hidden(filter, topic) && matches_levels(filter, topic)
}

// Returns true if the texts match level by level: drops their common prefix, then each `+` with the
// level that it matches.
#[tactic(auto, using(crate::proofs::LeftInALoop::some_first))]
fn matches_levels(filter: &[u8], topic: &[u8]) -> bool
    requires { IsPair filter.now topic.now }
    ensures { result ≡ matches_levels filter.now topic.now }
{
    let (mut filter_rest, mut topic_rest) = after_front(filter, topic);
    while starts_with(b'+', filter_rest) {
        (filter_rest, topic_rest) = after_front(&filter_rest[1..], after_level(topic_rest));
    }
    ends_match(filter_rest, topic_rest)
}

// Returns what is left of both texts after their longest common prefix.
#[tactic(auto, using(crate::proofs::LeftInALoop::front_step))]
fn after_front<'a>(filter: &'a [u8], topic: &'a [u8]) -> (&'a [u8], &'a [u8])
    requires { IsPair filter.now topic.now }
    ensures left { IsLeft filter.now topic.now result.0.now result.1.now }
    ensures apart { IsApart result.0.now result.1.now }
    ensures shorter { length result.0.now ≤ length filter.now }
{
    let mut filter_rest = filter;
    let mut topic_rest = topic;
    while let ([part, after_part @ ..], [name, after_name @ ..]) = (filter_rest, topic_rest) {
        if part != name {
            break;
        }
        filter_rest = after_part;
        topic_rest = after_name;
    }
    (filter_rest, topic_rest)
}

// Returns the text from its first `/` on.
#[tactic(auto, using(crate::proofs::PlusGoesBy::after_cut, crate::proofs::PlusGoesBy::after_none))]
fn after_level(text: &[u8]) -> &[u8]
    ensures { result.now ≡ after_level text.now }
{
    for (i, byte) in text.iter().enumerate() {
        if *byte == b'/' {
            return &text[i..];
        }
    }
    &[]
}

// Returns true if the rests match. They have no first byte in common, and the filter's does not
// begin with `+`.
fn ends_match(filter_rest: &[u8], topic_rest: &[u8]) -> bool
    ensures { result ≡ ends_match filter_rest.now topic_rest.now }
{
    match filter_rest {
        [] => topic_rest.is_empty(),
        [b'#', ..] => true,
        [part, after @ ..] => *part == b'/' && is_hash(after) && topic_rest.is_empty(),
    }
}

// Returns true if a text begins with a byte.
fn starts_with(byte: u8, text: &[u8]) -> bool
    ensures { result ≡ starts_with byte text.now }
{
    match text {
        [first, ..] => *first == byte,
        [] => false,
    }
}

// Returns true if a filter begins with a wildcard.
fn starts_with_wildcard(filter: &[u8]) -> bool
    ensures { result ≡ starts_with_wildcard filter.now }
{
    starts_with(b'#', filter) || starts_with(b'+', filter)
}

// Returns true if the filter begins with a wildcard and the topic with `$`: these do not match
// (MQTT 4.7.2).
fn is_hidden(filter: &[u8], topic: &[u8]) -> bool
    ensures { result ≡ is_hidden filter.now topic.now }
{
    starts_with_wildcard(filter) && starts_with(b'$', topic)
}
