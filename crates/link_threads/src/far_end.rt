// The other end of a link.

use std::fmt;

/// The other end of a link.
#[derive(Clone, Copy, Debug, PartialEq, Eq)]
pub enum FarEnd {
    /// The master.
    Master,
    /// The node of this row of the table, counted from 0.
    Row(usize),
}

impl fmt::Display for FarEnd {
    fn fmt<W: fmt::Write>(&self, f: &mut fmt::Formatter<W>) -> fmt::Result {
        match self {
            FarEnd::Master => write!(f, "the master"),
            FarEnd::Row(row) => write!(f, "row {}", row.saturating_add(1)),
        }
    }
}
