//! The range of every state of the broker, whatever its commands were: within the limits, each
//! number, text and publication in its range, and every answer encodable. And its bytes: form 2, to
//! which a broker is frozen, and form 1, which is only read.

mod theorems;

pub use theorems::{
    answers_can_be_spelled, frozen_is_thawed, lists_are_in_range, rows_are_frozen,
    states_stay_in_range, thawed_is_frozen, thawed_is_in_range,
};
