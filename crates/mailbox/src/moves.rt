// The rule of an inbox's queue, and the operations on passes, which are what each end knows of it.
// Two are atomic steps that change what the inbox holds: `Sends`, a push by a lane, and `Takes`, a
// pop by the receiver. The others only move knowledge.

use crate::view::View;
use crossbeam_queue::protocol::{Join, Lesson, Outcome, Protocol, Split};
use crossbeam_queue::{Pass, RuledArrayQueue};

/// The invariant of the queue: it holds what its lanes sent and its receiver has not taken.
pub struct DeliveryRule;

impl<T> Protocol<(u8, T), View<T>> for DeliveryRule {
    ghost use Rattle.std.specs.Prelude.{◌^◌, []};
    ghost use Rattle.mailbox.specs.Delivery.{FitsRule, no_bounds, receiver_view};

    ghost holds = { FitsRule };

    ghost first = { receiver_view 0 [] (2 ^ 64) (2 ^ 64) no_bounds };
}

/// The queue of an inbox, under its rule.
pub type Queue<T> = RuledArrayQueue<(u8, T), View<T>, DeliveryRule>;

/// A pass of that queue: what one end of the inbox knows.
pub type Knowledge<T> = Pass<(u8, T), View<T>>;

/// The push by which a lane sends an item.
pub struct Sends;

impl<T> Outcome<(u8, T), View<T>> for Sends {
    ghost use Rattle.mailbox.specs.Inside.{Sent};

    ghost then = { Sent };
}

impl<T> Lesson<(u8, T), View<T>> for Sends {
    ghost use Rattle.mailbox.specs.Delivery.{Knew};

    ghost fact = { Knew };
}

/// The pop by which the receiver takes an item of any lane.
pub struct Takes;

impl<T> Outcome<(u8, T), View<T>> for Takes {
    ghost use Rattle.mailbox.specs.Inside.{Took};

    ghost then = { Took };
}

impl<T> Lesson<(u8, T), View<T>> for Takes {
    ghost use Rattle.mailbox.specs.Delivery.{Knew};

    ghost fact = { Knew };
}

/// The receiver makes the next lane.
pub struct Deals;

impl<T> Split<View<T>> for Deals {
    ghost use Rattle.mailbox.specs.Inside.{dealing, dealt};

    ghost left = { dealing };

    ghost right = { dealt };
}

/// The receiver makes no more lanes.
pub struct Seals;

impl<T> Split<View<T>> for Seals {
    ghost use Rattle.mailbox.specs.Inside.{nobody, sealed};

    ghost left = { sealed };

    ghost right = { λ known. nobody };
}

/// A lane lends all that it knows to a pass that the receiver absorbs.
pub struct Lends;

impl<T> Split<View<T>> for Lends {
    ghost use Rattle.mailbox.specs.Inside.{nobody};

    ghost left = { λ known. nobody };

    ghost right = { λ known. known };
}

/// A lane issues a receipt of what it has sent.
pub struct LaneKnows;

impl<T> Split<View<T>> for LaneKnows {
    ghost use Rattle.mailbox.specs.Inside.{lane_knows};

    ghost left = { λ known. known };

    ghost right = { lane_knows };
}

/// The receiver issues a receipt of what it has taken.
pub struct ReceiverKnows;

impl<T> Split<View<T>> for ReceiverKnows {
    ghost use Rattle.mailbox.specs.Inside.{receiver_knows};

    ghost left = { λ known. known };

    ghost right = { receiver_knows };
}

/// A lane ends, and issues a receipt of that.
pub struct Ends;

impl<T> Split<View<T>> for Ends {
    ghost use Rattle.mailbox.specs.Inside.{ended, nobody};

    ghost left = { λ known. nobody };

    ghost right = { ended };
}

/// A pass learns what a receipt says.
pub struct Hears;

impl<T> Join<View<T>> for Hears {
    ghost use Rattle.mailbox.specs.Inside.{heard, nobody};

    ghost both = { heard };

    ghost spent = { nobody };
}

/// The receiver absorbs what a lane knows, compares, and gives it back.
pub struct Meets;

impl<T> Join<View<T>> for Meets {
    ghost use Rattle.mailbox.specs.Inside.{nobody, joined};

    ghost both = { joined };

    ghost spent = { nobody };
}

impl<T> Lesson<(u8, T), View<T>> for Meets {
    ghost use Rattle.mailbox.specs.Inside.{Learned};

    ghost fact = { λ known _. Learned known };
}

impl<T> Split<View<T>> for Meets {
    ghost use Rattle.mailbox.specs.Inside.{receiver_part, lane_part};

    ghost left = { receiver_part };

    ghost right = { lane_part };
}
