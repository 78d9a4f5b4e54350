// Inboxes: acts, each with what comes of it, and threads that send at once.

mod acts;
mod echoing;
mod memory;
mod pouring;
