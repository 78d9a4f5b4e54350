// A Topic Name: what a publication is about (MQTT 4.7).

ghost use Rattle.std.specs.Prelude.{◌≡◌, ◌≢◌, Some, None, IfOk, OnOk, IfErr, IsTrue, true};
ghost use Rattle.topics.specs.Text.{topic_fault, is_topic, RefusesBy};

use crate::level::has_length;
use crate::malformed::MalformedKind;
use crate::survey::Survey;
use crate::text::Text;
use std::alloc::{AllocError, Global};
use std::fmt;
use std::marker::Model;

/// A Topic Name of 1 to 65,535 bytes and at most 32 levels, without wildcards (MQTT 4.7).
/// Compared and ordered by its bytes.
#[derive(Debug, PartialEq, Eq, PartialOrd, Ord, Hash, Drop)]
pub struct TopicName {
    // The text itself: it has no fault that `TopicName::new` looks for.
    text: Text,
}

impl Model for TopicName {
    ghost use Rattle.std.specs.Prelude.{List, ℕ, IsTrue};
    ghost use Rattle.topics.specs.Text.{is_topic};

    ghost Value = { List ℕ };

    ghost view = { λ name. name.text };

    ghost invariant = { λ name. IsTrue (is_topic name.text) };

    ghost inverse = { λ bytes. record { text = bytes } };
}

impl TopicName {
    /// Returns the Topic Name of this text. In this order: `Text` if it contains U+0000; `Topic` if
    /// it is empty, has more than 65,535 bytes or a wildcard; `TooDeep` if it has more than 32
    /// levels; `Memory` if memory runs out.
    #[tactic(auto, using(crate::proofs::Faultless::is_topic_none))]
    pub fn new(alloc: Global, text: &str) -> Result<TopicName, MalformedKind>
        ensures value { IfOk result (λ name. name ≡ text.now) }
        ensures ok { OnOk result (topic_fault text.now ≡ None) }

        // Memory may run out only for a text without a fault.
        ensures err { IfErr result (RefusesBy (topic_fault text.now)) }
    {
        if let Some(fault) = TopicName::fault_of(text) {
            return Err(fault);
        }
        let text = Text::new(alloc, text)?;
        Ok(TopicName { text })
    }

    /// Returns the Topic Name of a text without a fault; it fails only if memory runs out.
    #[tactic(auto, using(crate::proofs::Faultless::is_topic_none))]
    pub fn of_faultless(alloc: Global, text: &str) -> Result<TopicName, AllocError>
        requires { topic_fault text.now ≡ None }
        ensures { IfOk result (λ name. name ≡ text.now) }
    {
        let text = Text::new(alloc, text)?;
        Ok(TopicName { text })
    }

    /// Returns the first fault of a text as a Topic Name, as [`TopicName::new`] has it; `None` if
    /// it has none. Takes no memory.
    pub fn fault_of(text: &str) -> Option<MalformedKind>
        ensures exact { result ≡ topic_fault text.now }
        ensures memory { result ≢ Some MalformedKind.Memory }
    {
        let text = text.as_bytes();
        let survey = Survey::of(text);
        if survey.has_null {
            return Some(MalformedKind::Text);
        }
        if !has_length(text) || !survey.has_no_wildcard {
            return Some(MalformedKind::Topic);
        }
        if !survey.is_shallow {
            return Some(MalformedKind::TooDeep);
        }
        None
    }

    /// Returns the Topic Name of a text without a fault.
    pub(crate) fn of_checked(text: Text) -> TopicName
        requires { is_topic text ≡ true }
        ensures { result ≡ text }
    {
        TopicName { text }
    }

    /// Returns the text of this name.
    pub fn as_str(&self) -> &str
        ensures value { result.now ≡ self.now }
        ensures checked { IsTrue (is_topic self.now) }
    {
        self.text.as_str()
    }
}

impl Clone for TopicName {
    ghost is_clone = { λ name copy. copy ≡ name };

    fn clone(&self) -> Result<TopicName, AllocError> {
        Ok(TopicName {
            text: self.text.clone()?,
        })
    }
}

impl fmt::Display for TopicName {
    ghost output = { λ name. Some name };

    fn fmt<W: fmt::Write>(&self, f: &mut fmt::Formatter<W>) -> fmt::Result {
        self.text.fmt(f)
    }
}
