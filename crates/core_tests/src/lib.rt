//! Tests in code of packets, of the broker, of replication and of whole worlds: what is no row of
//! text. Printed texts and orders, long runs by a fixed rule, worlds event by event, and what goes
//! on after a loss.
#![tactic(auto)]

#[cfg(test)]
mod brokers;
mod limits;
mod orders;
#[cfg(test)]
mod packets;
mod ranges;
mod readings;
#[cfg(test)]
mod replicas;
#[cfg(test)]
mod told;
#[cfg(test)]
mod worlds;

pub use limits::numbers_of_texts;
pub use orders::{
    clean_connects_find_nothing, first_faults_of_texts, full_sessions_take_qos_0,
    late_messages_change_nothing, wildcards_hide_from_dollar,
};
pub use ranges::ranges_have_their_edges;
pub use readings::{
    answers_fit_the_qos, expels_of_nobody_are_nothing, live_connections_are_current,
    released_entries_are_read, removing_needs_no_room,
};
