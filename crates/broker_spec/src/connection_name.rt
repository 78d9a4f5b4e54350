// Names of Network Connections, which are never used twice.

ghost use Rattle.std.specs.Prelude.{◌≡◌, ◌<◌, ◌≤◌, ◌^◌, ◌↔◌, IsNone, IfSome, IsSome};
ghost use Rattle.broker_spec.specs.Connection.{IsConnectionName};

use machine::MAX_BALLOT;

/// The greatest number of a connection in its ballot.
pub const MAX_COUNT: u64 = 0x100_0000_0000;

/// The name of a Network Connection: the ballot in which its node accepted it, and its number among
/// the connections of that ballot. No two connections of a run have the same name. Names are
/// ordered by ballot, then by number.
#[derive(Clone, Copy, Debug, PartialEq, Eq, PartialOrd, Ord)]
pub struct ConnectionName {
    // From 1 to 2^32.
    ballot: u64,
    // From 1 to `MAX_COUNT`.
    count: u64,
}

impl std::marker::Model for ConnectionName {
    ghost use Rattle.broker_spec.specs.Connection.{ConnectionName, IsConnectionName};

    ghost Value = { ConnectionName };

    ghost view = { λ name. record { ballot = name.ballot; count = name.count } };

    ghost inverse = { λ name. record { ballot = name.ballot; count = name.count } };

    ghost invariant = { λ name.
        IsConnectionName (record { ballot = name.ballot; count = name.count }) };
}

impl ConnectionName {
    /// Returns the connection with this number in this ballot, or `None` if the ballot is not in 1
    /// to 2^32 or the number not in 1 to 2^40.
    pub fn new(ballot: u64, count: u64) -> Option<ConnectionName>
        ensures named { IfSome result (λ name. name ≡ record { ballot = ballot; count = count }) }
        ensures valid { IsSome result
            ↔ IsConnectionName (record { ballot = ballot; count = count }) }
    {
        if ballot == 0 || ballot > MAX_BALLOT || count == 0 || count > MAX_COUNT {
            return None;
        }
        Some(ConnectionName { ballot, count })
    }

    /// Returns the ballot, 1 to 2^32.
    pub fn ballot(self) -> u64
        ensures value { result ≡ self.ballot }
        ensures valid { IsConnectionName self }
    {
        self.ballot
    }

    /// Returns the number in the ballot, 1 to 2^40.
    pub fn count(self) -> u64
        ensures value { result ≡ self.count }
        ensures valid { IsConnectionName self }
    {
        self.count
    }
}
