// The fields of a line, and of an answer.

ghost use Rattle.std.specs.Prelude.{◌≡◌, ◌++◌, ◌∷◌, [], OnOk};
ghost use Rattle.std.specs.Fmt.{decimal};
ghost use Rattle.rows.specs.Fields.{are_same};

use crate::field::Field;
use std::alloc::{AllocError, Global};
use std::fmt;
use std::marker::Model;

/// The fields of a line or of an answer, in order. Their value in contracts is the list of their
/// bytes.
pub struct Fields {
    fields: Vec<Field>,
}

impl Drop for Fields {
    fn drop(self) {
        let Fields { fields: _fields } = self;
    }
}

impl Model for Fields {
    ghost use Rattle.std.specs.Prelude.{List, ℕ};

    ghost Value = { List (List ℕ) };

    ghost view = { λ fields. fields.fields.items };
}

impl Fields {
    /// Returns no fields.
    pub fn new(alloc: Global) -> Fields
        ensures { result ≡ [] }
    {
        Fields {
            fields: Vec::new(alloc),
        }
    }

    /// Returns the fields.
    pub fn as_slice(&self) -> &[Field]
        ensures { result.now ≡ self.now }
    {
        self.fields.as_slice()
    }

    /// Appends a field.
    pub fn push(&mut self, field: Field) -> Result<(), AllocError>
        ensures { OnOk result (self.new ≡ self.old ++ field ∷ []) }
    {
        self.fields.push(field)?;
        Ok(())
    }

    /// Appends a field of these bytes.
    pub fn bytes(&mut self, bytes: &[u8]) -> Result<(), AllocError>
        ensures { OnOk result (self.new ≡ self.old ++ bytes.now ∷ []) }
    {
        let alloc = *self.fields.allocator();
        let copy = Vec::from_slice(alloc, bytes)?;
        self.push(Field::new(copy))
    }

    /// Appends a field of this text.
    pub fn text(&mut self, text: &str) -> Result<(), AllocError>
        ensures { OnOk result (self.new ≡ self.old ++ text.now ∷ []) }
    {
        self.bytes(text.as_bytes())
    }

    /// Appends a field of the decimal digits of a number.
    pub fn number(&mut self, number: u64) -> Result<(), AllocError>
        ensures { OnOk result (self.new ≡ self.old ++ decimal number ∷ []) }
    {
        let alloc = *self.fields.allocator();
        let digits = format!(in alloc; "{number}")?;
        self.text(digits.as_str())
    }

    /// Returns true if the others are the same fields.
    pub fn are(&self, others: &[Field]) -> bool
        ensures { result ≡ are_same self.now others.now }
    {
        are_same(self.as_slice(), others)
    }
}

// Returns true if both have the same fields in the same order.
#[tactic(auto, using(crate::proofs::Compared::fields_beside_none))]
fn are_same(fields: &[Field], others: &[Field]) -> bool
    ensures { result ≡ are_same fields.now others.now }
{
    match (fields, others) {
        ([], []) => true,
        ([], [_, ..]) => false,
        ([_, ..], []) => false,
        ([field, fields @ ..], [other, others @ ..]) => {
            field.is(other.as_slice()) && are_same(fields, others)
        }
    }
}

impl fmt::Display for Fields {
    fn fmt<W: fmt::Write>(&self, f: &mut fmt::Formatter<W>) -> fmt::Result {
        for (index, field) in self.as_slice().iter().enumerate() {
            if index > 0 {
                write!(f, " ")?;
            }
            write!(f, "{field}")?;
        }
        Ok(())
    }
}

impl fmt::Display for Field {
    fn fmt<W: fmt::Write>(&self, f: &mut fmt::Formatter<W>) -> fmt::Result {
        match self.as_text() {
            Some(text) if is_word(text.as_bytes()) => write!(f, "{text}"),
            Some(text) if is_plain(text.as_bytes()) => write!(f, "\"{text}\""),
            _ => write_bytes(f, self.as_slice()),
        }
    }
}

// Returns true if a field can be written as a word.
fn is_word(bytes: &[u8]) -> bool {
    !bytes.is_empty()
        && bytes.iter().all(|byte| byte.is_ascii_lowercase()
            || byte.is_ascii_digit()
            || *byte == b'=')
}

// Returns true if a field can be shown as a text in quotes.
fn is_plain(bytes: &[u8]) -> bool {
    bytes.len() <= 80
        && bytes
            .iter()
            .all(|byte| *byte >= b' ' && *byte < 127 && *byte != b'"')
}

// Writes bytes in hexadecimal, at most the first 64.
fn write_bytes<W: fmt::Write>(f: &mut fmt::Formatter<W>, bytes: &[u8]) -> fmt::Result {
    write!(f, "x\"")?;
    for byte in bytes.iter().take(64) {
        write!(f, "{byte:02X}")?;
    }
    if bytes.len() > 64 {
        write!(f, "..\" of {} bytes", bytes.len())
    } else {
        write!(f, "\"")
    }
}
