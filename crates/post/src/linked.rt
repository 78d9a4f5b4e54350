//! A node whose other nodes and master are in other programs, and what waits for links to them.

mod hurry;
mod linked_node;
mod payload;
mod route;
mod route_queue;

pub use linked_node::LinkedNode;
pub use route::Route;
pub(crate) use route_queue::RouteQueue;
