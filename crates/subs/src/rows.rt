// The rows of one filter: its clients.

ghost use Rattle.std.specs.Prelude.{◌≡◌, [], OnOk, OnErr, IfOk, IsTrue, is_some, Some, None};
ghost use Rattle.std.specs.Cmp.Lexicographic.{slice_cmp};
ghost use Rattle.std.specs.Ordering.{nat_cmp};
ghost use Rattle.std.specs.BTreeMap.{Updates, get};
ghost use Rattle.subs.specs.declared.rows.Rows.TheVariants.{One};
ghost use Rattle.subs.specs.Rows.{rows_as_list, qos_of_client, SetsAt};

use machine::Memory;
use packet_base::{ClientId, QoS};
use std::alloc::Global;
use std::collections::BTreeMap;

/// The clients of one filter, with the QoS of their subscriptions. A single client is stored in the
/// node itself: most filters have one, and a map of one row takes several hundred bytes.
#[derive(Debug, Drop)]
pub(crate) enum Rows {
    Empty,
    One(ClientId, QoS),
    Many(BTreeMap<ClientId, QoS>),
}

impl Rows {
    /// Sets the client's row. If memory runs out nothing has changed.
    pub(crate) fn set(&mut self, alloc: Global, client: &ClientId, qos: QoS) -> Result<(), Memory>
        ensures ok { OnOk result (SetsAt self.old self.new client.now (Some qos)) }
        ensures err { OnErr result (qos_of_client self.new ≡ qos_of_client self.old) }
        ensures absent { OnErr result (qos_of_client self.old client.now ≡ None) }
    {
        match self {
            Rows::Empty => {
                *self = Rows::One(client.clone()?, qos);
                Ok(())
            }
            Rows::One(owner, kept) => {
                if *owner == *client {
                    *kept = qos;
                    return Ok(());
                }
                *self = both(alloc, owner, *kept, client, qos)?;
                Ok(())
            }
            Rows::Many(rows) => set_client(rows, client, qos),
        }
    }

    /// Removes the client's row and returns whether there was one. Takes no memory.
    pub(crate) fn clear(&mut self, client: &ClientId) -> bool
        ensures found { result ≡ is_some (qos_of_client self.old client.now) }
        ensures after { SetsAt self.old self.new client.now None }
    {
        match self {
            Rows::Empty => false,
            Rows::One(owner, _) => {
                let found = *owner == *client;
                if found {
                    *self = Rows::Empty;
                }
                found
            }
            Rows::Many(rows) => clear_client(rows, client),
        }
    }

    /// Returns true if there is no client.
    pub(crate) fn is_empty(&self) -> bool
        ensures { IsTrue result → rows_as_list self.now ≡ [] }
    {
        match self {
            Rows::Empty => true,
            Rows::One(_, _) => false,
            Rows::Many(rows) => rows.is_empty(),
        }
    }
}

// Returns the rows of two clients, as a map.
fn both(
    alloc: Global,
    owner: &ClientId,
    kept: QoS,
    client: &ClientId,
    qos: QoS,
) -> Result<Rows, Memory>
    ensures { IfOk result (λ rows. SetsAt (One owner.now kept) rows client.now (Some qos)) }
{
    let mut rows = BTreeMap::new(alloc);
    rows.insert(owner.clone()?, kept)?;
    rows.insert(client.clone()?, qos)?;
    Ok(Rows::Many(rows))
}

fn set_client(
    clients: &mut BTreeMap<ClientId, QoS>,
    client: &ClientId,
    qos: QoS,
) -> Result<(), Memory>
    ensures ok { OnOk result
        (Updates (slice_cmp nat_cmp) clients.old clients.new client.now (Some qos)) }
    ensures err { OnErr result (clients.new.entries ≡ clients.old.entries) }
    ensures absent { OnErr result (get (slice_cmp nat_cmp) clients.old client.now ≡ None) }
{
    if let Some(kept) = clients.get_mut(client) {
        *kept = qos;
        return Ok(());
    }
    clients.insert(client.clone()?, qos)?;
    Ok(())
}

fn clear_client(clients: &mut BTreeMap<ClientId, QoS>, client: &ClientId) -> bool
    ensures found { result ≡ is_some (get (slice_cmp nat_cmp) clients.old client.now) }
    ensures after { Updates (slice_cmp nat_cmp) clients.old clients.new client.now None }
{
    clients.remove(client).is_some()
}
