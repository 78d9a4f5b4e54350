//! Printing a publication on one line, and a text with its other bytes escaped.

mod lines;

pub use lines::{print_line, print_text};
