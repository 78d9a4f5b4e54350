// A field of a line.

ghost use Rattle.std.specs.Prelude.{◌≡◌, ◌==◌, Some, IfSome, bytes_eq, slice_index};
ghost use Rattle.rows.specs.Fields.{number_of};

use std::marker::Model;
use std::str;

/// A field of a line: any bytes, which are its value in contracts.
pub struct Field {
    bytes: Vec<u8>,
}

impl Drop for Field {
    fn drop(self) {
        let Field { bytes: _bytes } = self;
    }
}

impl Model for Field {
    ghost use Rattle.std.specs.Prelude.{List, ℕ};

    ghost Value = { List ℕ };

    ghost view = { λ field. field.bytes.items };
}

impl Field {
    /// Returns the field of these bytes.
    pub fn new(bytes: Vec<u8>) -> Field
        ensures { result ≡ bytes.items }
    {
        Field { bytes }
    }

    /// Returns its bytes.
    pub fn as_slice(&self) -> &[u8]
        ensures { result.now ≡ self.now }
    {
        self.bytes.as_slice()
    }

    /// Returns true if these are its bytes.
    pub fn is(&self, bytes: &[u8]) -> bool
        ensures { result ≡ bytes_eq self.now bytes.now }
    {
        self.bytes.as_slice() == bytes
    }

    /// Returns it as a text, if it is UTF-8.
    pub fn as_text(&self) -> Option<&str>
        ensures { IfSome result (λ text. text.now ≡ self.now) }
    {
        str::from_utf8(self.bytes.as_slice()).ok()
    }

    /// Returns the number that its digits write, if it is decimal and below 2^64.
    pub fn number(&self) -> Option<u64>
        ensures { IfSome result (λ number. number_of self.now ≡ Some number) }
    {
        number_of(self.as_slice())
    }
}

/// Returns the number that the digits write.
pub(crate) fn number_of(digits: &[u8]) -> Option<u64>
    ensures { IfSome result (λ number. number_of digits.now ≡ Some number) }
{
    // `parse` accepts a sign.
    if has_sign(digits) {
        return None;
    }
    let Ok(text) = str::from_utf8(digits) else {
        return None;
    };
    match text.parse::<u64>() {
        Ok(number) => Some(number),
        Err(_) => None,
    }
}

// Returns true if the text begins with a plus.
fn has_sign(text: &[u8]) -> bool
    ensures { result ≡ (slice_index text.now 0 == 43) }
{
    match text {
        [first, ..] => *first == b'+',
        [] => false,
    }
}
