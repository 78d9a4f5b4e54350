// Bytes in hexadecimal, as `30 05` or `2B2F*31 2B`.

ghost use Rattle.std.specs.Prelude.{◌≡◌, Some, IfOk, OnOk};
ghost use Rattle.std.specs.Result.{result_ok};
ghost use Rattle.hex.specs.Hex.{decode_of};
ghost use Rattle.rows.specs.Fields.{Appends, bytes_of, group_of, group_parts, groups_of};
ghost use Rattle.rows.specs.Fields.{number_of, parts_of, repeat, repeated, texts};

use crate::error::StepFault;
use crate::field::number_of;
use hex::FromHexError;
use std::alloc::{AllocError, Global};

/// Returns the bytes that the groups between spaces write.
pub(crate) fn bytes_of(alloc: Global, text: &[u8]) -> Result<Vec<u8>, StepFault>
    ensures { IfOk result (λ bytes. bytes_of text.now ≡ Some bytes.items) }
{
    let groups = parts_of(alloc, text)?;
    let mut bytes = Vec::new(alloc);
    append_groups(alloc, groups.as_slice(), &mut bytes)?;
    Ok(bytes)
}

/// Returns the parts of a text between spaces.
pub(crate) fn parts_of<'a>(alloc: Global, text: &'a [u8]) -> Result<Vec<&'a [u8]>, AllocError>
    ensures { IfOk result (λ parts. texts parts.items ≡ parts_of text.now) }
{
    text.split(|byte| *byte == b' ').collect(alloc)
}

// Appends the bytes of groups.
#[tactic(auto, using(crate::proofs::Appended::both_append))]
fn append_groups(alloc: Global, groups: &[&[u8]], bytes: &mut Vec<u8>) -> Result<(), StepFault>
    ensures { OnOk result (Appends bytes.old.items bytes.new.items (groups_of (texts groups.now))) }
{
    if let [group, rest @ ..] = groups {
        append_group(alloc, group, bytes)?;
        append_groups(alloc, rest, bytes)?;
    }
    Ok(())
}

// Appends the bytes of a group: pairs of digits, which a `*` and a number may follow.
fn append_group(alloc: Global, group: &[u8], bytes: &mut Vec<u8>) -> Result<(), StepFault>
    ensures { OnOk result
        (Appends bytes.old.items bytes.new.items (group_of (group_parts group.now))) }
{
    let parts = group_parts(alloc, group)?;
    append_parts(alloc, parts.as_slice(), bytes)
}

// Returns the parts of a group between its stars.
fn group_parts<'a>(alloc: Global, group: &'a [u8]) -> Result<Vec<&'a [u8]>, AllocError>
    ensures { IfOk result (λ parts. texts parts.items ≡ group_parts group.now) }
{
    group.split(|byte| *byte == b'*').collect(alloc)
}

// Appends the bytes of a group of these parts.
fn append_parts(alloc: Global, parts: &[&[u8]], bytes: &mut Vec<u8>) -> Result<(), StepFault>
    ensures { OnOk result (Appends bytes.old.items bytes.new.items (group_of (texts parts.now))) }
{
    match parts {
        [digits] => {
            let decoded = decode(alloc, digits)?;
            Ok(bytes.extend_from_slice(decoded.as_slice())?)
        }
        [digits, count] => {
            let decoded = decode(alloc, digits)?;
            append_repeated(decoded.as_slice(), number_of(count), bytes)
        }
        _ => Err(StepFault::Form),
    }
}

// Returns the bytes of pairs of digits.
fn decode(alloc: Global, digits: &[u8]) -> Result<Vec<u8>, StepFault>
    ensures { IfOk result (λ bytes. result_ok (decode_of digits.now) ≡ Some bytes.items) }
{
    match hex::decode(alloc, digits) {
        Ok(bytes) => Ok(bytes),
        Err(FromHexError::OutOfMemory) => Err(StepFault::Memory),
        Err(_) => Err(StepFault::Form),
    }
}

// Appends the same bytes this many times.
fn append_repeated(piece: &[u8], count: Option<u64>, bytes: &mut Vec<u8>) -> Result<(), StepFault>
    ensures { OnOk result
        (Appends bytes.old.items bytes.new.items (repeat count (Some piece.now))) }
{
    let Some(count) = count else {
        return Err(StepFault::Form);
    };
    for _ in 0..count {
        bytes.extend_from_slice(piece)?;
    }
    Ok(())
}
