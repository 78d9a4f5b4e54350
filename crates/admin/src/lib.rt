//! What a monitor asks over HTTP: health, status, sessions, connections and metrics, as answers to
//! requests in memory. GET alone; a request has at most 4 KiB.
#![tactic(auto)]

mod answers;
mod asked;
mod bodies;
mod connections_page;
mod json_members;
mod metrics_page;
mod reader;
mod samples;
mod serving;
mod sessions_page;
mod status_page;
mod theorems;
mod view;
mod wanted;

pub use answers::answer;
pub use asked::MAX_FIELDS;
pub use reader::{MAX_REQUEST, RequestReader};
pub use serving::serve_admin;
pub use sessions_page::MAX_LISTED;
pub use theorems::{pages_skip_no_session, strings_are_escaped};
pub use view::{
    ActiveBallot, AdminView, ConnectionLine, Counters, Details, Filled, NodeLine, OrderCounts,
    RefusalCount, Role, SessionLine,
};
pub use wanted::Wanted;
