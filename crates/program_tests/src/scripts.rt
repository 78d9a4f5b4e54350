// Scripts that are played without the program.

mod memory;
mod transcripts;
