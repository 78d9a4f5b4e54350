//! Topic Names, Topic Filters and their matching (MQTT 3.1.1, section 4.7), and the kinds of
//! malformed input that every decoder reports.
#![tactic(auto)]

mod filter;
mod level;
mod malformed;
mod matching;
mod survey;
mod text;
mod theorems;
mod topic_name;

pub use filter::Filter;
pub use level::{has_no_wildcard, split_level};
pub use malformed::MalformedKind;
pub use matching::matches;
pub use text::Text;
pub use theorems::{bare_matches_itself, matches_is_tested};
pub use topic_name::TopicName;
