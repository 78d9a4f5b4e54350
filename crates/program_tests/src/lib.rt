//! Tests in code of what the program consists of: clients over servers in memory, inputs that fail,
//! refused memory, and printed texts. Rows of the program are in `scenarios/program.rows`.
#![tactic(auto)]

#[cfg(test)]
mod inputs;
#[cfg(test)]
mod library;
#[cfg(test)]
mod operator;
#[cfg(test)]
mod scripts;
#[cfg(test)]
mod texts;
#[cfg(test)]
mod user_clients;
