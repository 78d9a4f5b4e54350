//! Rows of tests in text files: reads them, plays them, and says where one differs. And numbers by
//! a fixed rule, for tests that draw what happens next.
#![tactic(auto)]

mod answers;
mod error;
mod field;
mod fields;
mod files;
mod hexadecimal;
mod line;
mod line_reader;
mod numbers;
mod playing;
mod reader;

pub use answers::{counted, only, word, yes_or_no};
pub use error::{RowsFault, StepFault};
pub use field::Field;
pub use fields::Fields;
pub use files::{Player, play_file};
pub use line::{Line, split_row};
pub use numbers::Numbers;
pub use playing::{Cut, Outcome, Tested, are_equal, play_steps};
pub use reader::read;
