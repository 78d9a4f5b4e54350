// Theorems about rows. The functions do nothing; their contracts are the theorems.

ghost use Rattle.broker_base.specs.rows.CommandTheorems.{OneRowIsWritten, NobodyChangesNothing};
ghost use Rattle.broker_base.specs.rows.CommandTheorems.{OwnerIsFoundByMap};
ghost use Rattle.broker_base.specs.rows.PublicationTheorems.{GrantedRowsMatch, RoomIsOfGrantedRows};
ghost use Rattle.broker_base.specs.rows.PublicationTheorems.{AnswersAreOfGrantedRows};

/// States that a command on a client's current connection writes or removes that client's row (MQTT
/// 3.1.4), and touches no other unless it is a PUBLISH that is taken.
pub fn one_row_is_written()
    ensures { OneRowIsWritten }
{}

/// States that a command on a connection that is no client's current one changes no row, unless it
/// is an accepted Connect.
pub fn nobody_changes_nothing()
    ensures { NobodyChangesNothing }
{}

/// States that a map from connections to clients that agrees with the sessions finds the row that
/// owns a connection.
pub fn owner_is_found_by_map()
    ensures { OwnerIsFoundByMap }
{}

/// States that an index that holds the sessions' subscriptions grants the sessions that match (MQTT
/// 3.3.5).
pub fn granted_rows_match()
    ensures { GrantedRowsMatch }
{}

/// States that some session lacks room for a publication exactly if the session of a granted row
/// does.
pub fn room_is_of_granted_rows()
    ensures { RoomIsOfGrantedRows }
{}

/// States that what all clients are sent of a publication is what the clients of the granted rows
/// are sent, in order.
pub fn answers_are_of_granted_rows()
    ensures { AnswersAreOfGrantedRows }
{}
