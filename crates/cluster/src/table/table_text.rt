// Reading the table of a cluster.

ghost use Rattle.std.specs.Prelude.{◌≡◌};
ghost use Rattle.cluster.specs.table.Given.{Gives, table_data};
ghost use Rattle.cluster.specs.table.Tables.{table_of};

use crate::table::cluster_table::ClusterTable;
use crate::table::document::document_table;
use crate::table::fault::TableFault;
use std::alloc::Global;

/// How many rows a table has at most.
pub const MAX_ROWS: usize = 15;

/// Reads the table of a cluster from a TOML document. Fails with the first fault in the ascending
/// order of the keys: a key that is missing, unknown or of another kind; no rows or more than
/// fifteen; and at last two rows with one address. `Memory` only if memory runs out.
pub fn table(alloc: Global, text: &str) -> Result<ClusterTable, TableFault>
    ensures { Gives table_data result (table_of text.now) }
{
    match toml::table_from_str(alloc, text) {
        Ok(document) => document_table(alloc, &document),
        Err(error) if error.is_memory() => Err(TableFault::Memory),
        Err(error) => Err(TableFault::Toml(error)),
    }
}
