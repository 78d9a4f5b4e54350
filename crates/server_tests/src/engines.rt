// Connections, and the devices below them, any call of which may fail.

mod connections;
mod counted;
mod ends;
mod fakes;
