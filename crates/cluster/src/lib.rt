//! A cluster of nodes in programs of their own, and its master: what the master keeps over its
//! restarts (`desk`), what the user wrote (`table`: words of the command line, the table of the
//! cluster), and the master itself (`master`: its files, its links to nodes, its orders).
#![tactic(auto)]

pub mod desk;
pub mod master;
pub mod table;
