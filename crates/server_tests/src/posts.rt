// Messages between nodes and orders: what wakes a node's own thread, and what it finds before it
// sleeps.

mod acts;
mod cluster_rows;
mod wakers;
