//! The step on all clients, split into the rows that a command touches: which row it writes, and
//! which rows a taken publication needs.

mod connect_theorems;
mod copy_theorems;
mod expel_theorems;
mod map_theorems;
mod packet_theorems;
mod publish_theorems;
mod rows;
mod theorems;

pub use connect_theorems::{connect_steps, full_connect_steps, insertion_writes, start_steps};
pub use copy_theorems::{copies_in_parts, subscribes_in_turn};
pub use expel_theorems::expel_steps;
pub use map_theorems::{
    content_of_ended_sessions, content_of_subscriptions, maps_made_anew, maps_stay,
    owners_of_connect, owners_of_end,
};
pub use packet_theorems::{
    handled_packet_steps, leaving_steps, nobodys_steps, repeat_steps, served_session_is_found,
    subscribe_steps,
};
pub use publish_theorems::{
    change_is_of_one_row, refused_publication_steps, room_lasts_to_its_turn,
    taken_publication_steps,
};
pub use rows::{maps_of_three_clients, one_publication_for_three_clients};
pub use theorems::{
    answers_are_of_granted_rows, granted_rows_match, nobody_changes_nothing, one_row_is_written,
    owner_is_found_by_map, room_is_of_granted_rows,
};
