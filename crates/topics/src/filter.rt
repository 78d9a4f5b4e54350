// A Topic Filter: what a subscription asks for (MQTT 4.7.1).

ghost use Rattle.std.specs.Prelude.{◌≡◌, ◌≢◌, ◌&&◌, Some, None, IfOk, OnOk, IfErr, IsTrue};
ghost use Rattle.topics.specs.Text.{filter_fault, is_filter, named_topic, RefusesBy, levels};
ghost use Rattle.topics.specs.Text.{has_length, has_wildcards_in_place, has_no_wildcard, may_stand};

use crate::level::{has_length, has_no_wildcard, is_hash, is_last, is_plus, split_level};
use crate::malformed::MalformedKind;
use crate::survey::Survey;
use crate::text::Text;
use crate::topic_name::TopicName;
use std::alloc::{AllocError, Global};
use std::fmt;
use std::marker::Model;

/// A Topic Filter of 1 to 65,535 bytes and at most 32 levels, with its wildcards in their places:
/// `+` alone in its level, `#` alone in the last one (MQTT 4.7.1). It is compared and ordered by
/// its bytes.
#[derive(Debug, PartialEq, Eq, PartialOrd, Ord, Hash, Drop)]
pub struct Filter {
    // The text itself: it has no fault that `Filter::new` looks for.
    text: Text,
}

impl Model for Filter {
    ghost use Rattle.std.specs.Prelude.{List, ℕ, IsTrue};
    ghost use Rattle.topics.specs.Text.{is_filter};

    ghost Value = { List ℕ };

    ghost view = { λ filter. filter.text };

    ghost invariant = { λ filter. IsTrue (is_filter filter.text) };

    ghost inverse = { λ bytes. record { text = bytes } };
}

impl Filter {
    /// Returns the Topic Filter of this text. In this order: `Text` if it contains U+0000; `Filter`
    /// if it is empty, has more than 65,535 bytes or a wildcard out of its place; `TooDeep` if it
    /// has more than 32 levels; `Memory` if memory runs out.
    #[tactic(auto, using(crate::proofs::Faultless::is_filter_none))]
    pub fn new(alloc: Global, text: &str) -> Result<Filter, MalformedKind>
        ensures value { IfOk result (λ filter. filter ≡ text.now) }
        ensures ok { OnOk result (filter_fault text.now ≡ None) }

        // Memory may run out only for a text without a fault.
        ensures err { IfErr result (RefusesBy (filter_fault text.now)) }
    {
        if let Some(fault) = Filter::fault_of(text) {
            return Err(fault);
        }
        let text = Text::new(alloc, text)?;
        Ok(Filter { text })
    }

    /// Returns the Topic Filter of a text without a fault; it fails only if memory runs out.
    #[tactic(auto, using(crate::proofs::Faultless::is_filter_none))]
    pub fn of_faultless(alloc: Global, text: &str) -> Result<Filter, AllocError>
        requires { filter_fault text.now ≡ None }
        ensures { IfOk result (λ filter. filter ≡ text.now) }
    {
        let text = Text::new(alloc, text)?;
        Ok(Filter { text })
    }

    /// Returns the first fault of a text as a Topic Filter, as [`Filter::new`] has it; `None` if it
    /// has none. Takes no memory. Only a text with wildcards is scanned a second time.
    pub fn fault_of(text: &str) -> Option<MalformedKind>
        ensures exact { result ≡ filter_fault text.now }
        ensures memory { result ≢ Some MalformedKind.Memory }
    {
        let text = text.as_bytes();
        let survey = Survey::of(text);
        if survey.has_null {
            return Some(MalformedKind::Text);
        }
        if !has_length(text) || !is_formed(text, survey.has_no_wildcard) {
            return Some(MalformedKind::Filter);
        }
        if !survey.is_shallow {
            return Some(MalformedKind::TooDeep);
        }
        None
    }

    /// Returns the Topic Name of the same text, if the filter has no wildcard: the only one that it
    /// then matches. The two share the text, so it takes no memory; it fails only if its references
    /// can no longer be counted.
    #[tactic(auto, using(crate::proofs::Faultless::is_topic_bare))]
    pub fn as_topic(&self) -> Result<Option<TopicName>, AllocError>
        ensures { IfOk result (λ topic. topic ≡ named_topic self.now) }
    {
        if !has_no_wildcard(self.text.as_str().as_bytes()) {
            return Ok(None);
        }
        let text = self.text.clone()?;
        Ok(Some(TopicName::of_checked(text)))
    }

    /// Returns the text of this filter.
    pub fn as_str(&self) -> &str
        ensures value { result.now ≡ self.now }
        ensures checked { IsTrue (is_filter self.now) }
    {
        self.text.as_str()
    }
}

// Returns true if the wildcards are in their places, or if there are none.
#[tactic(auto, using(crate::proofs::OnePass::bare_is_in_place))]
fn is_formed(text: &[u8], is_bare: bool) -> bool
    requires { is_bare ≡ has_no_wildcard text.now }
    ensures { result ≡ has_wildcards_in_place (levels text.now) }
{
    is_bare || has_wildcards_in_place(text)
}

// Returns true if each wildcard is a level of its own, and `#` the last one (MQTT 4.7.1).
fn has_wildcards_in_place(text: &[u8]) -> bool
    ensures { result ≡ has_wildcards_in_place (levels text.now) }
{
    let mut rest = Some(text);
    while let Some(text) = rest {
        let (level, after) = split_level(text);
        if !may_stand(level, is_last(after)) {
            return false;
        }
        rest = after;
    }
    true
}

// Returns true if the level has no wildcard, is `+`, or is `#` and the last level.
fn may_stand(level: &[u8], last: bool) -> bool
    ensures { result ≡ may_stand level.now last }
{
    has_no_wildcard(level) || is_plus(level) || (is_hash(level) && last)
}

impl Clone for Filter {
    ghost is_clone = { λ filter copy. copy ≡ filter };

    fn clone(&self) -> Result<Filter, AllocError> {
        Ok(Filter {
            text: self.text.clone()?,
        })
    }
}

impl fmt::Display for Filter {
    ghost output = { λ filter. Some filter };

    fn fmt<W: fmt::Write>(&self, f: &mut fmt::Formatter<W>) -> fmt::Result {
        self.text.fmt(f)
    }
}
