//! One history for all nodes of a program and their master: a log of events, kept in proofs alone,
//! which is a run of the model of groups. Nodes are steps ahead of one another in threads; each
//! adds its events to the log by one exchange on a word of its own.
#![tactic(auto)]

mod ending;
mod event;
mod links_on_record;
mod master_on_record;
mod naming;
mod node_on_record;
mod opened_run;
mod rule;
mod run_log;
mod seen_run;
mod sent_effects;
mod sent_item;
mod sent_message;
mod told;
mod waiting;

pub use ending::settle_all;
pub use event::{
    BroughtMessage, MasterAct, MasterEvent, NodeAct, NodeEvent, OpenedGroup, RunEvent,
};
pub use links_on_record::LinksOnRecord;
pub use master_on_record::MasterOnRecord;
pub use naming::RunNaming;
pub use node_on_record::NodeOnRecord;
pub use opened_run::{NodeMaker, OpenedRun};
pub use rule::RunRule;
pub use run_log::RunLog;
pub use seen_run::SeenRun;
pub use sent_effects::SentEffects;
pub use sent_item::SentItem;
pub use sent_message::SentMessage;
