// The QoS 2 publications that were received and wait for PUBREL (MQTT 4.3.3).

ghost use Rattle.std.specs.Prelude.{◌≡◌, [], OnOk, OnErr};
ghost use Rattle.lists.specs.Lists.{has_id};
ghost use Rattle.session_base.specs.Identifiers.{with_id, without_id};

use packet_base::PacketId;
use std::alloc::{AllocError, Global};
use std::collections::BTreeSet;
use std::marker::Model;

/// The identifiers of received QoS 2 publications without a PUBREL, ascending.
#[derive(Drop)]
pub(crate) struct Received {
    /// Each stays until its PUBREL comes.
    pub(crate) ids: BTreeSet<PacketId>,
}

impl Model for Received {
    ghost use Rattle.std.specs.Prelude.{List, ℕ};

    ghost Value = { List ℕ };

    ghost view = { λ received. received.ids.keys };
}

impl Received {
    /// Returns an empty set.
    pub(crate) fn new(alloc: Global) -> Received
        ensures { result ≡ [] }
    {
        Received {
            ids: BTreeSet::new(alloc),
        }
    }

    /// Returns true if the identifier is in the set.
    pub(crate) fn contains(&self, id: PacketId) -> bool
        ensures { result ≡ has_id id self.now }
    {
        self.ids.contains(&id)
    }

    /// Adds an identifier, if it is new.
    pub(crate) fn insert(&mut self, id: PacketId) -> Result<(), AllocError>
        ensures ok { OnOk result (self.new ≡ with_id id self.old) }
        ensures err { OnErr result (self.new ≡ self.old) }
    {
        self.ids.insert(id)?;
        Ok(())
    }

    /// Removes an identifier, if it is in the set. Takes no memory.
    pub(crate) fn remove(&mut self, id: PacketId)
        ensures { self.new ≡ without_id id self.old }
    {
        // This call shows that the identifiers are ascending, so that each is there once.
        let _count = self.ids.len();
        self.ids.remove(&id);
    }
}
