// What an operator is told: answers to requests of a monitor, and lines of the log.

mod answered;
mod told;
