// Appending the fields of a packet to a vector. The caller has reserved the capacity, so none of
// these functions allocates.

ghost use Rattle.std.specs.Prelude.{
  ◌≡◌,
  ◌+◌,
  ◌^◌,
  ◌<◌,
  ◌≤◌,
  [],
  ◌∷◌,
  ◌++◌,
  length,
  vec_len,
  vec_capacity,
};
ghost use Rattle.packet_base.specs.Spelling.{number, text};

/// Appends a byte.
pub fn put_byte(out: &mut Vec<u8>, byte: u8)
    requires { vec_len out.old + 1 ≤ vec_capacity out.old }
    ensures items { out.new.items ≡ out.old.items ++ byte ∷ [] }
    ensures len { vec_len out.new ≡ vec_len out.old + 1 }
    ensures capacity { vec_capacity out.old ≤ vec_capacity out.new }
{
    out.push_reserved(byte);
}

/// Appends these bytes.
pub fn put_bytes(out: &mut Vec<u8>, bytes: &[u8])
    requires { vec_len out.old + length bytes.now ≤ vec_capacity out.old }
    ensures items { out.new.items ≡ out.old.items ++ bytes.now }
    ensures len { vec_len out.new ≡ vec_len out.old + length bytes.now }
    ensures capacity { vec_capacity out.old ≤ vec_capacity out.new }
{
    out.extend_from_slice(bytes).unwrap();
}

/// Appends a number of two bytes, the high one first (MQTT 1.5.2).
pub fn put_number(out: &mut Vec<u8>, value: u16)
    requires { vec_len out.old + 2 ≤ vec_capacity out.old }
    ensures items { out.new.items ≡ out.old.items ++ number value }
    ensures len { vec_len out.new ≡ vec_len out.old + 2 }
    ensures capacity { vec_capacity out.old ≤ vec_capacity out.new }
{
    put_bytes(out, &value.to_be_bytes());
}

/// Appends a text, its length in two bytes before it (MQTT 1.5.3).
pub fn put_text(out: &mut Vec<u8>, value: &str)
    requires short { length value.now < 2 ^ 16 }
    requires room { vec_len out.old + (2 + length value.now) ≤ vec_capacity out.old }
    ensures items { out.new.items ≡ out.old.items ++ text value.now }
    ensures len { vec_len out.new ≡ vec_len out.old + (2 + length value.now) }
    ensures capacity { vec_capacity out.old ≤ vec_capacity out.new }
{
    put_number(out, value.len() as u16);
    put_bytes(out, value.as_bytes());
}
