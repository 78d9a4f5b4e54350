// Whole worlds: long runs that lose nothing, tables of rows, ways to recover, and what is carried
// between one client and its pipes.

mod changes;
mod course;
mod long;
mod memory;
mod opening;
mod piped;
mod refusals;
mod tables;
mod world_rows;
