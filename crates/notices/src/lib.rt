//! What an operator is told, as lines on standard error: why connections are closed, which queues
//! are full, crashes, takeovers, refused orders. At most ten lines a second of each kind; the rest
//! are counted.
#![tactic(auto)]

mod close_reason;
mod escaping;
mod kind;
mod limiter;
mod log_word;
mod notice;
mod telling;
mod theorems;
mod window;

pub use close_reason::CloseReason;
pub use escaping::Quoted;
pub use kind::{KINDS, NoticeKind};
pub use limiter::{HeldBack, Limiter};
pub use log_word::log_filter;
pub use notice::{Notice, QueueState};
pub use telling::{tell, tell_held_back};
pub use theorems::{every_notice_is_counted, quoted_texts_are_json, ten_lines_a_second};
pub use window::{Admission, LINES_A_SECOND, Window};
