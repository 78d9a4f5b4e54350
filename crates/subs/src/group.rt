// The rows of one filter while the tree of a list is built.

ghost use Rattle.std.specs.Prelude.{◌≡◌, ◌++◌, ◌∷◌, [], OnOk, IfOk};
ghost use Rattle.subs_base.specs.Content.{last_qos_in};
ghost use Rattle.subs.specs.Gathered.{rows_of_group};
ghost use Rattle.subs.specs.Rows.{qos_of_client};

use crate::rows::Rows;
use machine::Memory;
use packet_base::{ClientId, QoS};
use std::alloc::Global;
use std::collections::BTreeMap;

/// The rows of one filter in the order in which they were added. A single row takes no memory of
/// its own.
#[derive(Drop)]
pub(crate) enum Group {
    One(ClientId, QoS),
    More(Vec<(ClientId, QoS)>),
}

impl Group {
    /// Appends a row.
    pub(crate) fn add(&mut self, alloc: Global, row: (ClientId, QoS)) -> Result<(), Memory>
        ensures { OnOk result (rows_of_group self.new ≡ rows_of_group self.old ++ row ∷ []) }
    {
        match self {
            Group::One(client, qos) => {
                let first = (client.clone()?, *qos);
                *self = Group::More(Vec::from_array(alloc, [first, row])?);
            }
            Group::More(rows) => rows.push(row)?,
        }
        Ok(())
    }

    /// Returns the rows by client; of several rows of a client the last one counts.
    pub(crate) fn into_rows(self, alloc: Global) -> Result<Rows, Memory>
        ensures { IfOk result (λ rows. qos_of_client rows ≡ last_qos_in (rows_of_group self)) }
    {
        match self {
            Group::One(client, qos) => Ok(Rows::One(client, qos)),
            Group::More(rows) => {
                let clients = BTreeMap::from_iter(alloc, rows)?;
                Ok(Rows::Many(clients))
            }
        }
    }
}
