//! Which client subscribed to which filter, and which clients a publication goes to: the trait of
//! an index of subscriptions, and a simple one.
#![tactic(auto)]

mod list_index;
mod sub_index;
mod theorems;

pub use list_index::ListIndex;
pub use machine::Memory;
pub use sub_index::SubIndex;
pub use theorems::grants_one_list;
