//! A script of what happens in a world: its text, read whole before anything of it is done.
#![tactic(auto)]

mod error;
mod fields;
mod forms;
mod line_reader;
mod lines;
mod numbers;
mod opening;
pub mod orders;
mod script_line;
mod script_reader;
mod theorems;
mod values;

pub use error::ScriptFault;
pub use fields::{fields_of, parts_of};
pub use numbers::Numbers;
pub use opening::Opening;
pub use script_line::{Amount, ScriptLine};
pub use script_reader::{Script, read};
pub use theorems::{no_script_is_refused, one_meaning_a_line};
