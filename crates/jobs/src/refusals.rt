// Command lines that give no job.

ghost use Rattle.std.specs.Prelude.{◌≡◌};
ghost use Rattle.clap.specs.Values.{kind_of};
ghost use Rattle.jobs.specs.Errors.{line_status, words_status};

use crate::job_error::JobError;
use crate::job_runs::print_fault;
use clap::Error;
use clap::error::ErrorKind;
use command_line::LineFault;
use std::io::Write;

/// Prints why a command line gives no job, and returns the exit status. Help and the version go to
/// `output` if they were asked for, all else to `faults`. No clause says what is printed.
pub fn refuse<O: Write, E: Write>(fault: &LineFault, output: &mut O, faults: &mut E) -> u8
    ensures { result ≡ line_status fault.now }
{
    match fault {
        LineFault::Words(error) => {
            print(error, output, faults);
            status_of_words(error.kind())
        }
        LineFault::Incomplete => print_fault(faults, &JobError::Words),
        LineFault::Memory => print_fault(faults, &JobError::Memory),
    }
}

// Prints the answer of `clap` to the words.
fn print<O: Write, E: Write>(error: &Error, output: &mut O, faults: &mut E) {
    // There is nowhere else to print it.
    if error.use_stderr() {
        let _ = write!(faults, "{error}");
    } else {
        let _ = write!(output, "{error}");
        let _ = output.flush();
    }
}

// Returns the exit status of this answer.
fn status_of_words(kind: ErrorKind) -> u8
    ensures { result ≡ words_status kind }
{
    match kind {
        ErrorKind::DisplayVersion => 0,
        ErrorKind::OutOfMemory => 1,
        _ => 2,
    }
}
