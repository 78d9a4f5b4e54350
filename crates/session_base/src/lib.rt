//! One client's session as lists and as bytes: publications, what an entry in flight waits for, the
//! parts of a frozen session, and theorems about the queue and the form.
#![tactic(auto)]

mod awaits;
mod form_readers;
mod form_theorems;
mod form_writers;
mod limits;
mod publication;
mod rows;
mod theorems;

pub use awaits::Awaits;
pub use form_readers::{
    body_length, check_form, payload_of, read_flag, read_flight, read_granted_subscription,
    read_long_number, read_publication, read_qos, read_waiting,
};
pub use form_theorems::{frozen_is_read, full_session_is_frozen, read_has_form, read_is_frozen};
pub use form_writers::{
    write_flight, write_granted_subscription, write_number, write_payload, write_publication,
    write_text,
};
pub use limits::{MAX_ENTRIES, MAX_SUBSCRIPTIONS};
pub use publication::{Publication, delivery};
pub use rows::bodies_are_counted;
pub use theorems::{
    answers_fit_the_qos, answers_keep_identifiers_apart, fill_takes_what_waits, fills_join,
    least_identifier_is_free, other_answers_change_nothing, resend_keeps_the_order,
    sessions_keep_their_form,
};
