// Two nodes without threads of their own: acts, each with what comes of it, and gates.

mod came;
mod meeting;
mod memory;
mod performing;
mod playing;
mod runs;
mod starts;
mod together;
