//! The clients `pub` and `sub`, tested over servers in memory: connections in, bytes out. It has
//! only tests.

#[cfg(test)]
mod tests;
