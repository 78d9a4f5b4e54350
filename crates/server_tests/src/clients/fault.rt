// A step of a test that fails, and what came in place of what it awaits.

use crate::clients::came::Came;

/// A step that fails.
#[derive(Clone, Copy, Debug, PartialEq, Eq)]
pub struct Fault {
    /// The words.
    pub step: &'static str,
    /// What came in place of what the step awaits, if it uses a stream.
    pub came: Option<Came>,
}

impl Fault {
    /// Returns a step that uses no stream, and fails.
    pub fn new(step: &'static str) -> Fault {
        Fault { step, came: None }
    }
}

/// Checks a step that uses no stream, and has these words.
pub fn unless(is_so: bool, step: &'static str) -> Result<(), Fault> {
    if is_so { Ok(()) } else { Err(Fault::new(step)) }
}

/// Names the step in which an outcome failed.
pub fn named<T>(outcome: Result<T, Came>, step: &'static str) -> Result<T, Fault> {
    match outcome {
        Ok(value) => Ok(value),
        Err(came) => Err(Fault {
            step,
            came: Some(came),
        }),
    }
}
