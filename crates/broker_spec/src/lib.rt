//! What a list of commands means to an MQTT 3.1.1 broker: connections, sessions, subscriptions,
//! retained publications, the entries of each session with their times, and the answers.
#![tactic(auto)]

mod command;
mod connection_name;
mod endings;
mod limits;
mod rows;
mod sized_packet;
mod theorems;
mod window;

pub use command::{Command, Output};
pub use connection_name::ConnectionName;
pub use endings::{enters_as_published, enters_where_taken, nothing_after_the_end};
pub use limits::MAX_SESSIONS;
pub use rows::{
    a_full_queue_keeps_the_order, a_repeat_before_pubrel, a_second_connection_takes_over,
    an_expelled_session_is_gone, connect_is_answered, entries_have_their_places,
    exactly_once_is_sent_again, last_connection_is_live, last_publication_is_retained,
    limits_are_met, lower_qos_is_delivered, ping_unsubscribe_and_violations,
    puback_frees_its_identifier, publish_reaches_the_subscriber, pubrel_twice,
    retained_at_subscribe, sessions_begin_and_end, subscribe_is_granted,
    two_filters_one_publication, window_of_64,
};
pub use sized_packet::{SizedPacket, Unspellable};
pub use theorems::{
    answers_are_addressed, current_is_last_accepted, enters_once, entries_only_grow,
    filter_has_last_granting, identifiers_are_distinct, nothing_waits_in_vain,
    packet_of_nobody_is_nothing, publication_enters, repeat_is_unreleased, starts_where_it_may,
    taken_publish_adds_one,
};
pub use window::Window;
