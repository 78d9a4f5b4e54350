//! What the master of a cluster keeps over its restarts: the cluster's name, the next number for a
//! node, its ballots. It answers only after what it answers was kept.

mod desk;
mod error;
mod form;
mod keeper;
mod state;
mod theorems;

pub use desk::{Activation, Desk};
pub use error::{DeskError, FormFault, NotKept, OpenError};
pub use form::FORM_BYTES;
pub use keeper::Keeper;
pub use state::State;
pub use theorems::{answers_stand_over_restarts, states_have_one_form};
