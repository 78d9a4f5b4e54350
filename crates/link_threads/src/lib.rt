//! The links of a node over TCP: threads dial, accept, read and write, cut what is silent and dial
//! again. They work over a [`LinkDesk`], which lies between them and the node.
#![tactic(auto)]

mod accepting;
mod cause;
mod dialling;
mod dials;
mod far_end;
mod guests;
mod hall;
mod hearing;
mod incoming;
mod keeping;
mod line;
mod link_clock;
mod link_desk;
mod linking;
mod looks;
mod meeting;
mod outgoing;
mod parcels;
mod saying;
mod seats;
mod speaking;
mod standing;
mod strangers;
mod timed_stream;
mod transits;
mod welcome;

pub use dials::{Dials, NetDials};
pub use far_end::FarEnd;
pub use guests::{Guest, Guests};
pub use hall::{Life, LinkHall};
pub use incoming::{Incoming, LeftLog};
pub use keeping::{Doors, LinksEnd, keep_links};
pub use link_clock::LinkClock;
pub use link_desk::LinkDesk;
pub use meeting::{BEAT_MILLIS, Introduction, SILENT_MILLIS, meet};
pub use outgoing::Outgoing;
pub use parcels::Parcels;
pub use standing::News;
pub use strangers::{Stranger, Strangers};
pub use timed_stream::{BeatReader, PatientReader, StreamWriter, set_times};
pub use welcome::{Welcome, ask_number};
