//! Orders as lines: what a line orders, or why it is refused, and the lines that answer orders.

mod answers;
mod order_lines;
mod word_fault;
mod words;

pub use answers::{Answer, StatusLine};
pub use order_lines::{Order, order_of};
pub use word_fault::WordFault;
pub use words::{NO_ORDER, client_of, members_of, no_order};
