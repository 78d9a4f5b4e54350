//! Why a replica is not opened, or does not take a proposal.

mod error;

pub use error::{OpeningError, ProposeError};
