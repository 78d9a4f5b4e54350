// Two clients that run over servers in memory.

mod publishers;
mod servers;
mod subscribers;
