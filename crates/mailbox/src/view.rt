// What a pass of an inbox's queue knows.

use std::collections::LinkedList;

/// Bounds of what was sent and taken. Once true they stay true, so any end may know them. They
/// exist in proofs alone: no value of this is made.
pub struct Bounds {
    /// The lane that `sent` is about.
    pub lane: u8,
    /// How many items that lane has sent, at least.
    pub sent: u64,
    /// How many items were taken of all lanes, at least.
    pub taken: u64,
    /// How many items all lanes together will ever have sent, at most.
    pub most: u64,
}

/// What one end of an inbox, both ends while they meet, or a receipt knows. It exists in proofs
/// alone: no value of this is made.
pub struct View<T> {
    /// True if a lane knows this, or both ends while they meet.
    pub is_of_lane: bool,
    /// The lane's number.
    pub lane: u8,
    /// What the lane sent, oldest first.
    pub sent: LinkedList<T>,
    /// How many of these the lane knows to be taken.
    pub met: u64,
    /// True if the receiver knows this, or both ends while they meet.
    pub is_of_receiver: bool,
    /// How many lanes were made.
    pub lanes: u8,
    /// What the receiver took, oldest first, each item with its lane.
    pub taken: LinkedList<(u8, T)>,
    /// How many more items it may send; for the receiver, how many the lanes may send that are not
    /// made yet.
    pub may_send: u64,
    /// How many items all lanes together will ever have sent, at most, as the receiver knows.
    pub all: u64,
    /// What the last receipt says.
    pub bounds: Bounds,
}
