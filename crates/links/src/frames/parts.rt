// Cutting a message into parts.

ghost use Rattle.std.specs.Prelude.{◌≡◌, ◌+◌, ◌<◌, ◌≤◌, ◌++◌, length, vec_len, vec_capacity, OnOk, OnErr};
ghost use Rattle.links.specs.frames.Parts.{part, parts_of};

use crate::frames::head::{HEAD_BYTES, LAST, MAX_PART, MORE};
use std::alloc::AllocError;

/// Appends a message in parts of at most [`MAX_PART`] bytes. Fails only if the vector had too
/// little capacity and could not grow; then it is unchanged.
pub fn write_parts(message: &[u8], out: &mut Vec<u8>) -> Result<(), AllocError>
    ensures ok { OnOk result (out.new.items ≡ out.old.items ++ parts_of message.now) }
    ensures err { OnErr result (out.new.items ≡ out.old.items) }
    ensures full { OnErr result
        (vec_capacity out.old < vec_len out.old + length (parts_of message.now)) }
{
    out.reserve(written_len(message))?;
    put_parts(message, out);
    Ok(())
}

// Returns how many bytes the parts of a message have.
fn written_len(message: &[u8]) -> usize
    ensures { result ≡ length (parts_of message.now) }
{
    let full = message.len().saturating_sub(1) / MAX_PART;
    message.len() + HEAD_BYTES * (full + 1)
}

// Appends the parts of a message.
fn put_parts(message: &[u8], out: &mut Vec<u8>)
    requires { vec_len out.old + length (parts_of message.now) ≤ vec_capacity out.old }
    ensures { out.new.items ≡ out.old.items ++ parts_of message.now }
{
    let mut rest = message;
    'parts: while rest.len() > MAX_PART {
        let (full, behind) = rest.split_at(MAX_PART);
        put_part(MORE, full, out);
        rest = behind;
    }
    put_part(LAST, rest, out);
}

// Appends a part.
fn put_part(flag: u8, bytes: &[u8], out: &mut Vec<u8>)
    requires short { length bytes.now ≤ 65536 }
    requires room { vec_len out.old + length (part flag bytes.now) ≤ vec_capacity out.old }
    ensures items { out.new.items ≡ out.old.items ++ part flag bytes.now }
    ensures len { vec_len out.new ≡ vec_len out.old + length (part flag bytes.now) }
    ensures capacity { vec_capacity out.old ≤ vec_capacity out.new }
{
    let len = bytes.len() as u32;
    out.push_reserved(flag);
    put_bytes(&len.to_be_bytes(), out);
    put_bytes(bytes, out);
}

// Appends bytes.
fn put_bytes(bytes: &[u8], out: &mut Vec<u8>)
    requires { vec_len out.old + length bytes.now ≤ vec_capacity out.old }
    ensures items { out.new.items ≡ out.old.items ++ bytes.now }
    ensures len { vec_len out.new ≡ vec_len out.old + length bytes.now }
    ensures capacity { vec_capacity out.old ≤ vec_capacity out.new }
{
    out.extend_from_slice(bytes).unwrap();
}
