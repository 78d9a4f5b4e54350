//! Nodes that are held at gates while clients send over real sockets. It has only tests.

#[cfg(test)]
mod tests;
