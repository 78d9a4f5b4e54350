// The master's answer to a primary that asks it to activate a ballot.

/// Whether a ballot was activated.
#[derive(Clone, Copy, Debug, PartialEq, Eq)]
pub enum Activation {
    /// The ballot is the active one.
    Activated,
    /// The ballot was superseded, or a later one is active.
    Superseded,
}
