// Reading the head of a part.

ghost use Rattle.std.specs.Prelude.{◌≡◌, ◌≤◌, drop, length};
ghost use Rattle.links.specs.frames.Heads.{head_of, len_at, sized, IsWithin};

use crate::frames::error::PartFault;

/// Bytes of the longest part.
pub const MAX_PART: usize = 65_536;

/// Bytes of a part before its own: a flag, and its length.
pub(crate) const HEAD_BYTES: usize = 5;

/// The flag of the last part of a message.
pub(crate) const LAST: u8 = 0;

/// The flag of every other part.
pub(crate) const MORE: u8 = 1;

/// What a stream says where a part begins.
#[derive(Clone, Copy, Debug, PartialEq, Eq)]
pub enum Head {
    /// A part of this many bytes, and whether more parts of its message follow.
    Part(bool, usize),
    /// The head has not come whole.
    Unfinished,
    /// No part.
    Fault(PartFault),
}

/// Returns what a stream says where a part begins; its message takes so many bytes more.
pub(crate) fn head_of(bytes: &[u8], room: usize) -> Head
    ensures value { result ≡ head_of room bytes.now }
    ensures fits { IsWithin room bytes.now result }
{
    match bytes.first() {
        None => Head::Unfinished,
        Some(flag) if *flag > MORE => Head::Fault(PartFault::Flag),
        Some(flag) => match len_at(&bytes[1..]) {
            None => Head::Unfinished,
            Some(len) => sized(*flag == MORE, len as usize, room),
        },
    }
}

// Returns the length at the front of these bytes.
fn len_at(bytes: &[u8]) -> Option<u32>
    ensures { result ≡ len_at bytes.now }
{
    if bytes.len() < 4 {
        return None;
    }
    let front = &bytes[..4];
    Some(u32::from_be_bytes([front[0], front[1], front[2], front[3]]))
}

// Returns a part of this length, if it has one.
fn sized(is_followed: bool, len: usize, room: usize) -> Head
    ensures { result ≡ sized room is_followed len }
{
    if len > MAX_PART {
        return Head::Fault(PartFault::Length);
    }
    if len > room {
        return Head::Fault(PartFault::TooLarge);
    }
    Head::Part(is_followed, len)
}

/// Returns the bytes behind the first `count`.
pub(crate) fn behind(bytes: &[u8], count: usize) -> &[u8]
    requires { count ≤ length bytes.now }
    ensures { result.now ≡ drop count bytes.now }
{
    &bytes[count..]
}
