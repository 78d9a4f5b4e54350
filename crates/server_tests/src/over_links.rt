// What goes over a link between nodes, and its ends.

mod frame_rows;
mod link_ends;
mod message_rows;
mod queue_rows;
mod seal_rows;
