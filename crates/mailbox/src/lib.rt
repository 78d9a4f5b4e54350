//! An inbox: items that several lanes send and one receiver takes. What arrives of each lane is
//! what it sent, whole, once and in order; between lanes there is no order to rely on. An item may
//! be of any type.
#![tactic(auto)]

mod dealer;
mod inbox;
mod lane;
mod limits;
mod moves;
mod naming;
mod receipt;
mod receiver;
mod view;

pub use inbox::Inbox;
pub use lane::{Lane, MAX_SENT};
pub use limits::{MAX_ITEMS, MAX_LANES};
pub use machine::Memory;
pub use naming::Naming;
pub use receipt::Receipt;
pub use receiver::Receiver;
