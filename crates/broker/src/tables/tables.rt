// The tables of a broker.
//
// `window`, `sessions` and `retained` are the state; `owners` and `index` are derived from the
// sessions and find a row without a scan: the client of a connection, the clients of a topic.
// Tables are tied (`IsTied`) if `owners` has exactly the connections of the sessions and the
// content of `index` is the subscriptions of the sessions. Each command, one file for each kind,
// expects tied tables over a sound state and leaves them so; while it runs they are not, so if
// memory runs out in the middle the tables must not be used again. No command except a Start goes
// over all sessions. The sessions are ordered by the bytes of their clients: that is the order of
// copies and of the frozen form, the same on each replica.

ghost use Rattle.std.specs.Prelude.{◌≡◌};
ghost use Rattle.broker_base.specs.State.{empty_state};
ghost use Rattle.broker_spec.specs.Window.{wide_window};
ghost use Rattle.broker.specs.tables.Tables.{IsTied, state_in};

use crate::one_session::ClientRow;
use broker_spec::{ConnectionName, Window};
use packet_base::ClientId;
use retained::RetainedStore;
use std::alloc::Global;
use std::collections::BTreeMap;
use subs::TreeIndex;
use subs_base::SubIndex;

/// The sessions by client, and the retained publications. The map of connections and the index add
/// no state: they find a row without a scan over all.
pub struct Tables {
    /// The most entries of a session in flight.
    pub window: Window,
    pub sessions: BTreeMap<ClientId, ClientRow>,
    /// The client of each current connection.
    pub owners: BTreeMap<ConnectionName, ClientId>,
    /// The subscriptions of all clients.
    pub index: TreeIndex,
    pub retained: RetainedStore,
    /// For what a command allocates.
    pub alloc: Global,
}

impl Drop for Tables {
    fn drop(self) {
        let Tables {
            window: _window,
            sessions: _sessions,
            owners: _owners,
            index: _index,
            retained: _retained,
            alloc: _,
        } = self;
    }
}

impl Tables {
    /// Returns empty tables.
    pub fn new(alloc: Global) -> Tables
        ensures state { state_in result ≡ empty_state wide_window }
        ensures tied { IsTied result }
    {
        Tables {
            window: Window::wide(),
            sessions: BTreeMap::new(alloc),
            owners: BTreeMap::new(alloc),
            index: TreeIndex::new(alloc),
            retained: RetainedStore::new(alloc),
            alloc,
        }
    }
}
