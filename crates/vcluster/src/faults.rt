// Saying why the program fails.

use clap::Error;
use clap::error::ErrorKind;
use cluster::master::MasterError;
use cluster::table::{LineFault, TableFault, line_of};
use cluster_node::NodeError;
use std::rt::Files;
use std::{fs, str};

/// Prints an error in one line, and returns its exit status.
pub fn print_fault<R: Eprint>(rt: &R, error: &MasterError) -> u8 {
    // There is nowhere else to print it.
    let _ = eprintln!(rt; "vcluster: {error}");
    error.status()
}

/// Prints an error of a node in one line, and returns its exit status.
pub fn print_node_fault<R: Eprint>(rt: &R, error: &NodeError) -> u8 {
    // There is nowhere else to print it.
    let _ = eprintln!(rt; "vcluster: {error}");
    error.status()
}

/// Prints in one line what is wrong with the table of a file: its path, the line, the cause.
pub fn print_table_fault<R: Files + Eprint + AllocGlobal>(rt: &R, path: &str, fault: &TableFault) {
    let line = match fs::read(rt, path) {
        Ok(bytes) => match str::from_utf8(bytes.as_slice()) {
            Ok(text) => line_of(text, fault),
            Err(_) => None,
        },
        Err(_) => None,
    };
    // (there is nowhere else to print it)
    let _ = match line {
        Some(line) => eprintln!(rt; "{path} line {line}: {fault}"),
        None => eprintln!(rt; "{path}: {fault}"),
    };
}

/// Prints why a command line gives no job, and returns the exit status. Help and the version go to
/// the output if they were asked for, all else to standard error.
pub fn refuse<R: Print + Eprint>(rt: &R, fault: &LineFault) -> u8 {
    match fault {
        LineFault::Words(error) => {
            print(rt, error);
            status_of_words(error.kind())
        }
        LineFault::Incomplete => print_fault(rt, &MasterError::Words),
        LineFault::Memory => print_fault(rt, &MasterError::Memory),
    }
}

// Prints the answer of `clap` to the words.
fn print<R: Print + Eprint>(rt: &R, error: &Error) {
    // There is nowhere else to print it.
    let _ = if error.use_stderr() {
        eprint!(rt; "{error}")
    } else {
        print!(rt; "{error}")
    };
}

// Returns the exit status of this answer.
fn status_of_words(kind: ErrorKind) -> u8 {
    match kind {
        ErrorKind::DisplayVersion => 0,
        ErrorKind::OutOfMemory => 1,
        _ => 2,
    }
}
