// The configuration of a ballot: its members and its primary.

ghost use Rattle.std.specs.Prelude.{◌≡◌, [], IfOk, length};
ghost use Rattle.ballot_base.specs.LawfulConfig.{is_lawful, max_node};

use machine::Memory;
use std::alloc::Global;
use std::marker::Model;

/// The greatest node number in a table, a script or a world.
pub const MAX_NODE: u8 = 15;

/// The greatest node number in any cluster. A cluster whose nodes are processes gives each start of
/// a node a number that was never used. 255 stays free, so that a number and one more fit a `u8`.
pub const MAX_NUMBER: u8 = 254;

/// The most members a ballot has.
pub const MAX_MEMBERS: usize = 7;

/// The numbers of nodes, in the order in which they were given.
pub struct Members {
    // A lawful configuration has 1 to `MAX_MEMBERS`, strictly rising, none above its bound.
    numbers: Vec<u8>,
}

impl Drop for Members {
    fn drop(self) {
        let Members { numbers: _numbers } = self;
    }
}

impl Model for Members {
    ghost use Rattle.std.specs.Prelude.{List, ℕ};

    ghost Value = { List ℕ };

    ghost view = { λ members. members.numbers.items };
}

impl Members {
    /// Returns an empty list. Takes no memory.
    pub fn new(alloc: Global) -> Members
        ensures { result ≡ [] }
    {
        Members {
            numbers: Vec::new(alloc),
        }
    }

    /// Returns a copy of the numbers. Fails only if memory runs out.
    pub fn from_slice(alloc: Global, numbers: &[u8]) -> Result<Members, Memory>
        ensures { IfOk result (λ members. members ≡ numbers.now) }
    {
        let numbers = Vec::from_slice(alloc, numbers)?;
        Ok(Members { numbers })
    }

    /// Returns the members' numbers, in the order in which they were given.
    pub fn as_slice(&self) -> &[u8]
        ensures { result.now ≡ self.now }
    {
        self.numbers.as_slice()
    }
}

/// The configuration of a ballot: its members and which of them is its primary.
#[derive(Drop)]
pub struct Config {
    /// 1 to 7 nodes, strictly rising, each from 1 to [`MAX_NODE`], or to [`MAX_NUMBER`] where each
    /// number is used once.
    pub members: Members,
    /// One of the members.
    pub primary: u8,
}

impl Config {
    /// Returns true if a ballot of nodes 1 to [`MAX_NODE`] may have these members and this primary.
    pub fn is_lawful(&self) -> bool
        ensures { result ≡ is_lawful max_node self.now.members self.now.primary }
    {
        self.is_lawful_up_to(MAX_NODE)
    }

    /// Returns true if a ballot of nodes 1 to `greatest` may have these members and this primary.
    pub fn is_lawful_up_to(&self, greatest: u8) -> bool
        ensures { result ≡ is_lawful greatest self.now.members self.now.primary }
    {
        let members = self.members.as_slice();
        let mut last = 0;
        for member in members {
            if *member <= last || *member > greatest {
                return false;
            }
            last = *member;
        }
        1 <= members.len() && members.len() <= MAX_MEMBERS && members.contains(&self.primary)
    }
}
