// Worlds as tables of rows: which events are idle, what is carried on connections, and what clients
// take in.

mod courses;
mod crashes;
mod cuts;
mod expelled;
mod handshakes;
mod losing;
mod repeats;
mod stale;
mod superseded;
mod travelling;
mod ways;
