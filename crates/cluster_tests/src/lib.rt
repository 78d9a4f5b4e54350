//! Tests of the words and the table of `vcluster`, of what its master keeps and in which files, and
//! of a master with nodes over loopback. A crate with tests is proved a second time with them, so
//! they are a crate of their own.
#![tactic(auto)]

#[cfg(test)]
mod desk_rows;
#[cfg(test)]
mod disk;
#[cfg(test)]
mod file_rows;
#[cfg(test)]
mod linking;
#[cfg(test)]
mod loop_node;
#[cfg(test)]
mod node_end;
#[cfg(test)]
mod serving;
#[cfg(test)]
mod table_rows;
#[cfg(test)]
mod word_rows;
