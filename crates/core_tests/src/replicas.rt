// Groups and nodes: 20,000 events, and that they go on after a loss.

mod group_memory;
mod groups;
mod snapshot_memory;
mod takeovers;
mod texts;
mod twins;
