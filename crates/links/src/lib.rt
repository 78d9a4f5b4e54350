//! Links between nodes. The two engines of a link, over any device: what is read from it, and what
//! is written to it, after two ends have met. Below them the layers that they join: messages as
//! bytes (`message_form`), parts of messages (`frames`), seals of frames and hellos (`seal`), what
//! waits for a link (`link_queue`).
#![tactic(auto)]

mod devices;
pub mod frames;
mod handshake;
mod link_fault;
pub mod link_queue;
mod link_reader;
mod link_writer;
pub mod message_form;
mod parcel;
mod parcel_readers;
mod parcel_writers;
mod reading;
mod rows;
pub mod seal;
mod sink;
mod theorems;

pub use devices::DeviceFault;
pub use handshake::{HandshakeFault, Met, Party, shake};
pub use link_fault::LinkFault;
pub use link_reader::{LinkReader, MAX_FRAME, MAX_PARCEL};
pub use link_writer::{LinkWriteError, LinkWriter};
pub use parcel::{Parcel, Way, WayFault};
pub use parcel_readers::read_parcel;
pub use parcel_writers::write_parcel;
pub use reading::{LinkReadError, read_link};
pub use rows::{each_parcel_has_its_bytes, first_fault_of_a_parcel_counts};
pub use sink::ParcelSink;
pub use theorems::{
    accepted_frames_are_tagged, ends_have_one_place, links_hand_over_what_was_given,
    other_parcels_are_short, parcels_have_one_spelling, readings_join,
};
