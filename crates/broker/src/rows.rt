// The sessions of a frozen broker while they are read, with the map of their connections.

ghost use Rattle.std.specs.Prelude.{◌≡◌, false, true, [], ◌∷◌, ◌++◌, IfOk, OnOk};
ghost use Rattle.packet_base.specs.Outcome.{IsOutOfMemory, Reads};
ghost use Rattle.packet_base.specs.Readers.{number_at};
ghost use Rattle.session_base.specs.Counted.{counted_items_at, items_after, last_of, AddsItem};
ghost use Rattle.broker_spec.specs.Connection.{ConnectionName as SpecName};
ghost use Rattle.broker_base.specs.rows.Owners.{owned_by};
ghost use Rattle.broker_base.specs.form.Form.{row_at};
ghost use Rattle.broker_base.specs.form.Needs.{counts_some};
ghost use Rattle.broker_base.specs.form.Follows.{is_after, is_owned, row_follows};
ghost use Rattle.broker.specs.tables.Tables.{owners_at};
ghost use Rattle.broker.specs.Inside.{AreOwned};

use crate::one_session::ClientRow;
use crate::row_readers::read_row;
use broker_spec::{ConnectionName, MAX_SESSIONS, Window};
use packet_base::{ClientId, OUT_OF_MEMORY, Reader, Stop};
use session_base::check_form;
use std::alloc::{AllocError, Global};
use std::collections::BTreeMap;

/// Sessions by client, and the client of each of their connections. The map finds out without a
/// scan whether a connection is already that of another session.
#[derive(Drop)]
pub(crate) struct Rows {
    /// The sessions that were read so far.
    pub(crate) sessions: BTreeMap<ClientId, ClientRow>,
    /// The client of each connection of these sessions, and nothing else.
    pub(crate) owners: BTreeMap<ConnectionName, ClientId>,
}

impl Rows {
    /// Reads the sessions: their count, and as many rows with ascending clients. `Shape` if a
    /// connection occurs twice.
    #[tactic(auto, unfolding(session_base::specs::Counted::counted_items_at, session_base::specs::Counted::items_after))]
    pub(crate) fn read(alloc: Global, window: Window, reader: &mut Reader) -> Result<Rows, Stop>
        ensures exact { Reads (λ rows. rows.sessions.entries) result reader.new
            (counted_items_at number_at row_follows (row_at window) MAX_SESSIONS reader.old) }
        ensures owned { IfOk result AreOwned }
        ensures memory { IsOutOfMemory result →
            counts_some MAX_SESSIONS (number_at reader.old) ≡ true }
    {
        let count = reader.number()?;
        check_form(usize::from(count) <= MAX_SESSIONS)?;
        if count == 0 {
            return Ok(Rows::new(alloc));
        }
        read_rows(alloc, window, count, reader)
    }

    // Returns empty rows.
    fn new(alloc: Global) -> Rows
        ensures empty { result.sessions.entries ≡ [] }
        ensures owned { AreOwned result }
    {
        Rows {
            sessions: BTreeMap::new(alloc),
            owners: BTreeMap::new(alloc),
        }
    }

    // Appends a session; `Shape` unless it may follow the others.
    fn add(&mut self, client: ClientId, row: ClientRow) -> Result<(), Stop>
        requires { AreOwned self.old }
        ensures adds { AddsItem row_follows self.old.sessions.entries
            (client, row) result self.new.sessions.entries }
        ensures owned { OnOk result (AreOwned self.new) }
    {
        check_form(self.may_follow(&client, &row))?;
        match self.put_last(client, row) {
            Ok(()) => Ok(()),
            Err(_) => Err(OUT_OF_MEMORY),
        }
    }

    // Returns true if the client is above the last one, and the connection is not that of another
    // session.
    fn may_follow(&self, client: &ClientId, row: &ClientRow) -> bool
        requires { AreOwned self.now }
        ensures { result ≡ row_follows self.now.sessions.entries (client.now, row.now) }
    {
        self.is_after(client) && !self.is_owned(row.connection)
    }

    // Returns true if the client is above the last one.
    fn is_after(&self, client: &ClientId) -> bool
        ensures { result ≡ is_after (last_of self.now.sessions.entries) client.now }
    {
        match self.sessions.last_key_value() {
            Some((last, _)) => last < client,
            None => true,
        }
    }

    // Returns true if a session has this connection.
    fn is_owned(&self, connection: Option<ConnectionName>) -> bool
        requires { AreOwned self.now }
        ensures { result ≡ is_owned self.now.sessions.entries connection }
    {
        match connection {
            Some(connection) => self.owners.contains_key(&connection),
            None => false,
        }
    }

    // Appends a session and enters its connection in the map.
    fn put_last(&mut self, client: ClientId, row: ClientRow) -> Result<(), AllocError>
        requires owned { AreOwned self.old }
        requires follows { row_follows self.old.sessions.entries (client, row) ≡ true }
        ensures sessions { OnOk result
            (self.new.sessions.entries ≡ self.old.sessions.entries ++ (client, row) ∷ []) }
        ensures owned { OnOk result (AreOwned self.new) }
    {
        own(&mut self.owners, row.connection, &client)?;
        self.sessions.insert(client, row)?;
        Ok(())
    }
}

// Reads this many sessions.
fn read_rows(alloc: Global, window: Window, count: u16, reader: &mut Reader) -> Result<Rows, Stop>
    ensures exact { Reads (λ rows. rows.sessions.entries) result reader.new
        (items_after row_follows (row_at window) count [] reader.old) }
    ensures owned { IfOk result AreOwned }
{
    let mut rows = Rows::new(alloc);
    for _ in 0..count {
        let (client, row) = read_row(alloc, window, reader)?;
        rows.add(client, row)?;
    }
    Ok(rows)
}

// Enters a connection, if there is one, as the client's.
fn own(
    owners: &mut BTreeMap<ConnectionName, ClientId>,
    connection: Option<ConnectionName>,
    client: &ClientId,
) -> Result<(), AllocError>
    ensures { OnOk result
        ((name : SpecName) →
        owners_at owners.new.entries name
        ≡ owned_by connection client.now (owners_at owners.old.entries) name) }
{
    if let Some(connection) = connection {
        owners.insert(connection, client.clone()?)?;
    }
    Ok(())
}
