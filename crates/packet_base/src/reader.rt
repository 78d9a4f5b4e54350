// A cursor over the bytes of a packet.
//
// A reader holds the bytes that are not read yet, and a field that was read is dropped from their
// front, so a contract speaks of one list of bytes and of no index. Each call reads one field from
// left to right and reports its first fault; a decoder is a sequence of such calls, so that the
// first fault of the packet counts. Texts are borrowed from the input and checked in place: only
// what stays in a packet (names, filters, Client Identifiers, payloads) is copied. A missing byte
// inside a body is `Shape`: the length of the body is known before a reader is made, so more input
// cannot help.

ghost use Rattle.std.specs.Prelude.{◌≡◌, ◌<◌, None, true, IfOk, IsOk, IsTrue, ◌==◌, nat_eq, length, drop};
ghost use Rattle.std.specs.List.{starts_with};
ghost use Rattle.packet_base.specs.Readers.{byte_at, front_at, number_at, id_at, text_at, text_of};
ghost use Rattle.packet_base.specs.Readers.{ended, is_text};
ghost use Rattle.topics.specs.Text.{topic_fault, filter_fault};
ghost use Rattle.packet_base.specs.TopicFields.{topic_at, filter_at};
ghost use Rattle.packet_base.specs.Outcome.{Gives, Reads, TakesNoMemory, IsOutOfMemory};
ghost use Rattle.packet_base.specs.Inside.{name_of, pattern_of};

use crate::packet_id::PacketId;
use crate::stop::Stop;
use std::alloc::Global;
use std::marker::Model;
use topics::{Filter, MalformedKind, TopicName};

/// The unread bytes of a packet, which are its value in contracts. A field that does not fit into
/// them is `Shape`; after an error the reader must not be used.
#[derive(Drop)]
pub struct Reader<'a> {
    // From the next field to the end of the packet.
    rest: &'a [u8],
}

impl<'a> Model for Reader<'a> {
    ghost use Rattle.std.specs.Prelude.{ℕ, List};

    ghost Value = { List ℕ };

    ghost view = { λ reader. reader.rest.now };
}

impl<'a> Reader<'a> {
    /// Returns a reader at the front of the bytes.
    pub fn new(bytes: &'a [u8]) -> Reader<'a>
        ensures { result ≡ bytes.now }
    {
        Reader { rest: bytes }
    }

    /// Returns true if all bytes have been read.
    pub fn is_empty(&self) -> bool
        ensures { result ≡ (length self.now == 0) }
    {
        self.rest.is_empty()
    }

    /// Returns how many bytes are left.
    pub fn len(&self) -> usize
        ensures { result ≡ length self.now }
    {
        self.rest.len()
    }

    /// Skips `prefix` if the unread bytes begin with it, and returns whether they do.
    pub fn skip(&mut self, prefix: &[u8]) -> bool
        ensures found { result ≡ starts_with nat_eq self.old prefix.now }
        ensures past { IsTrue result → self.new ≡ drop (length prefix.now) self.old }
    {
        if !self.rest.starts_with(prefix) {
            return false;
        }
        self.rest = &self.rest[prefix.len()..];
        true
    }

    /// Reads the next byte; `Shape` if none is left.
    pub fn byte(&mut self) -> Result<u8, Stop>
        ensures exact { Reads (λ value. value) result self.new (byte_at self.old) }
        ensures memory { TakesNoMemory result }
    {
        match self.rest {
            [] => Err(Stop::Malformed(MalformedKind::Shape)),
            [byte, rest @ ..] => {
                self.rest = rest;
                Ok(*byte)
            }
        }
    }

    /// Reads the next `len` bytes.
    pub fn front(&mut self, len: usize) -> Result<&'a [u8], Stop>
        ensures exact { Reads (λ bytes. bytes.now) result self.new (front_at len self.old) }
        ensures memory { TakesNoMemory result }
    {
        let bytes = self.rest;
        if bytes.len() < len {
            return Err(Stop::Malformed(MalformedKind::Shape));
        }
        let (front, rest) = bytes.split_at(len);
        self.rest = rest;
        Ok(front)
    }

    /// Reads a number of two bytes, the high one first (MQTT 1.5.2).
    #[tactic(auto, unfolding(crate::specs::Readers::number_at))]
    pub fn number(&mut self) -> Result<u16, Stop>
        ensures exact { Reads (λ value. value) result self.new (number_at self.old) }
        ensures memory { TakesNoMemory result }
    {
        let front = self.front(2)?;
        Ok(u16::from_be_bytes([front[0], front[1]]))
    }

    /// Reads a Packet Identifier; zero is `Identifier` (MQTT 2.3.1).
    #[tactic(auto, unfolding(crate::specs::Readers::id_at))]
    pub fn id(&mut self) -> Result<PacketId, Stop>
        ensures exact { Reads (λ value. value) result self.new (id_at self.old) }
        ensures memory { TakesNoMemory result }
    {
        let number = self.number()?;
        if number == 0 {
            return Err(Stop::Malformed(MalformedKind::Identifier));
        }
        Ok(PacketId::new(number))
    }

    /// Reads a text with its length before it (MQTT 1.5.3). Bytes that are not well-formed UTF-8,
    /// or contain U+0000, are `Text`.
    #[tactic(auto, unfolding(crate::specs::Readers::text_at))]
    pub fn text(&mut self) -> Result<&'a str, Stop>
        ensures exact { Reads (λ text. text.now) result self.new (text_at self.old) }
        ensures checked { IfOk result (λ text. is_text text.now ≡ true) }
        ensures memory { TakesNoMemory result }
    {
        let len = self.number()?;
        let bytes = self.front(usize::from(len))?;
        checked_text(bytes)
    }

    /// Reads a Topic Name with its length before it. A text with a fault is `Text`, `Topic` or
    /// `TooDeep` (MQTT 4.7).
    pub fn topic(&mut self, alloc: Global) -> Result<TopicName, Stop>
        ensures exact { Reads (λ value. value) result self.new (topic_at self.old) }

        // Memory may run out only for a text without a fault.
        ensures memory { IsOutOfMemory result → IsOk (topic_at self.old) }
    {
        let text = self.topic_text()?;
        Ok(TopicName::of_faultless(alloc, text)?)
    }

    /// Reads the text of a Topic Name with its length before it, as [`Reader::topic`] does, and
    /// leaves it where it is.
    #[tactic(auto, unfolding(crate::specs::TopicFields::topic_at, crate::specs::Readers::text_at), using(crate::proofs::Texts::topic_ends))]
    pub fn topic_text(&mut self) -> Result<&'a str, Stop>
        ensures exact { Reads (λ text. text.now) result self.new (topic_at self.old) }
        ensures checked { IfOk result (λ text. topic_fault text.now ≡ None) }
        ensures memory { TakesNoMemory result }
    {
        let len = self.number()?;
        let bytes = self.front(usize::from(len))?;
        topic_name(bytes)
    }

    /// Reads a Topic Filter with its length before it. A text with a fault is `Text`, `Filter` or
    /// `TooDeep` (MQTT 4.7.1).
    pub fn filter(&mut self, alloc: Global) -> Result<Filter, Stop>
        ensures exact { Reads (λ value. value) result self.new (filter_at self.old) }

        // Memory may run out only for a text without a fault.
        ensures memory { IsOutOfMemory result → IsOk (filter_at self.old) }
    {
        let text = self.filter_text()?;
        Ok(Filter::of_faultless(alloc, text)?)
    }

    /// Reads the text of a Topic Filter with its length before it, as [`Reader::filter`] does, and
    /// leaves it where it is.
    #[tactic(auto, unfolding(crate::specs::TopicFields::filter_at, crate::specs::Readers::text_at), using(crate::proofs::Texts::filter_ends))]
    pub fn filter_text(&mut self) -> Result<&'a str, Stop>
        ensures exact { Reads (λ text. text.now) result self.new (filter_at self.old) }
        ensures checked { IfOk result (λ text. filter_fault text.now ≡ None) }
        ensures memory { TakesNoMemory result }
    {
        let len = self.number()?;
        let bytes = self.front(usize::from(len))?;
        topic_filter(bytes)
    }

    /// Returns all unread bytes, without reading them.
    pub fn rest(&self) -> &'a [u8]
        ensures { result.now ≡ self.now }
    {
        self.rest
    }

    /// Returns `Shape` if bytes are left over.
    pub fn end(&self) -> Result<(), Stop>
        ensures exact { Gives (λ value. value) result (ended self.now) }
        ensures memory { TakesNoMemory result }
    {
        if self.rest.is_empty() {
            return Ok(());
        }
        Err(Stop::Malformed(MalformedKind::Shape))
    }
}

// Returns the bytes as a text if they are well-formed UTF-8 without U+0000, and `Text` otherwise.
#[tactic(auto, using(crate::proofs::Texts::text_tests))]
fn checked_text(bytes: &[u8]) -> Result<&str, Stop>
    ensures exact { Gives (λ text. text.now) result (text_of bytes.now) }
    ensures checked { IfOk result (λ text. is_text text.now ≡ true) }
    ensures memory { TakesNoMemory result }
{
    let Ok(text) = std::str::from_utf8(bytes) else {
        return Err(Stop::Malformed(MalformedKind::Text));
    };
    if bytes.contains(&0) {
        return Err(Stop::Malformed(MalformedKind::Text));
    }
    Ok(text)
}

// Returns the bytes as the text of a Topic Name. `TopicName::fault_of` finds U+0000.
#[tactic(auto, using(crate::proofs::Texts::name_tests))]
fn topic_name(bytes: &[u8]) -> Result<&str, Stop>
    ensures exact { Gives (λ text. text.now) result (name_of bytes.now) }
    ensures checked { IfOk result (λ text. topic_fault text.now ≡ None) }
    ensures memory { TakesNoMemory result }
{
    let Ok(text) = std::str::from_utf8(bytes) else {
        return Err(Stop::Malformed(MalformedKind::Text));
    };
    match TopicName::fault_of(text) {
        Some(fault) => Err(Stop::Malformed(fault)),
        None => Ok(text),
    }
}

// Returns the bytes as the text of a Topic Filter. `Filter::fault_of` finds U+0000.
#[tactic(auto, using(crate::proofs::Texts::pattern_tests))]
fn topic_filter(bytes: &[u8]) -> Result<&str, Stop>
    ensures exact { Gives (λ text. text.now) result (pattern_of bytes.now) }
    ensures checked { IfOk result (λ text. filter_fault text.now ≡ None) }
    ensures memory { TakesNoMemory result }
{
    let Ok(text) = std::str::from_utf8(bytes) else {
        return Err(Stop::Malformed(MalformedKind::Text));
    };
    match Filter::fault_of(text) {
        Some(fault) => Err(Stop::Malformed(fault)),
        None => Ok(text),
    }
}
