// Rows of what happens in a world, and of what is seen of it then, byte by byte; for tests that are
// tables of such rows.

mod fault;
mod row;

pub use fault::{Came, Fault, UNOPENED, fault_after, fault_at, fault_in};
pub use row::{
    ABSENT, Action, Agreed, CONNECT_A, CONNECT_B, NOTHING, PRESENT, PRESENT_AND_PUBLISH, PUBLISH,
    PUBLISH_AGAIN, PUBREC, PUBREL, Row, Said, Sent, Session, Table, is_right, let_happen, named,
    opened,
};
pub use world_pipes::events::{EscapeError, Event};
