// How a value is printed.

use std::alloc::Global;
use std::fmt;

/// Returns true if a value is printed so.
pub fn is_told<T: fmt::Display>(alloc: Global, value: &T, text: &str) -> bool {
    match format!(in alloc; "{value}") {
        Ok(printed) => printed.as_str() == text,
        Err(_) => false,
    }
}
