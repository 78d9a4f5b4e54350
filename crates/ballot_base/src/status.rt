// What a replica reports about itself.

ghost use Rattle.std.specs.Prelude.{◌≡◌};
ghost use Rattle.ballot_base.specs.Replica.{is_active, is_backup, is_fetching, is_installing, serves_in_role};

/// The role of a replica in the ballot that it joined.
#[derive(Clone, Copy, Debug, PartialEq, Eq)]
pub enum Role {
    /// Follows the primary of its ballot.
    Backup,
    /// A new primary that fetches the log of the earlier ballot.
    Fetching,
    /// A new primary that installs its log at the members.
    Installing,
    /// The primary that takes proposals.
    Active,
}

impl Role {
    /// Returns true if this is the active primary.
    pub fn is_active(self) -> bool
        ensures { result ≡ is_active self }
    {
        match self {
            Role::Active => true,
            Role::Backup | Role::Fetching | Role::Installing => false,
        }
    }

    /// Returns true if this is a new primary that fetches a log.
    pub fn is_fetching(self) -> bool
        ensures { result ≡ is_fetching self }
    {
        match self {
            Role::Fetching => true,
            Role::Backup | Role::Installing | Role::Active => false,
        }
    }

    /// Returns true if this is a new primary that installs its log at the members.
    pub fn is_installing(self) -> bool
        ensures { result ≡ is_installing self }
    {
        match self {
            Role::Installing => true,
            Role::Backup | Role::Fetching | Role::Active => false,
        }
    }

    /// Returns true if this is a backup.
    pub fn is_backup(self) -> bool
        ensures { result ≡ is_backup self }
    {
        match self {
            Role::Backup => true,
            Role::Fetching | Role::Installing | Role::Active => false,
        }
    }
}

/// What an active primary tracks of another member.
#[derive(Clone, Copy, Debug, PartialEq, Eq)]
pub struct Progress {
    /// The member.
    pub member: u8,
    /// How many places it is known to hold.
    pub held: u64,
}

/// The status of a replica.
#[derive(Clone, Copy, Debug, PartialEq, Eq)]
pub struct Status {
    /// The ballot that it joined; 0 before the first.
    pub ballot: u64,
    /// Its role there.
    pub role: Role,
    /// The length of its log.
    pub held: u64,
    /// How many of them are applied.
    pub committed: u64,
    /// True once it has stopped: its node crashed, or memory ran out.
    pub stopped: bool,
}

impl Status {
    /// Returns true if it serves clients: it is the active primary of its ballot and runs.
    pub fn serves(self) -> bool
        ensures { result ≡ serves_in_role self.role self.stopped }
    {
        self.role.is_active() && !self.stopped
    }
}
