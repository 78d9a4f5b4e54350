// Saying the cause of an error, in a second line.

use crate::job_error::JobError;
use crate::refused_words::print_refused;
use crate::table_causes::print_table_cause;
use command_line::{Job, address_cause};
use std::io::Write;
use std::rt::Files;

/// Prints in one line the cause of an error, if more is known of it than the error says. No clause
/// says what is printed.
pub(crate) fn print_cause<R: Files + AllocGlobal, E: Write>(
    rt: &R,
    job: &Job<'_>,
    error: &JobError,
    faults: &mut E,
) {
    match (error, job) {
        (JobError::Table, Job::Serve(serve)) => print_table_cause(rt, serve.config, faults),
        (JobError::Address(address, _), _) => print_address(address.as_str(), faults),
        (JobError::Lost(cause), _) => {
            // (there is nowhere else to print it)
            let _ = writeln!(faults, "{cause}");
        }
        (JobError::NotSubscribed, Job::Subscribe(subscribe)) => {
            let filter = subscribe.filter;
            let _ = writeln!(faults, "--filter {filter:?}: SUBACK 0x80");
        }
        (JobError::Refused(number), job) => print_refused(job, *number, faults),
        _ => {}
    }
}

// Prints what is wrong with the form of an address, if something is.
fn print_address<E: Write>(address: &str, faults: &mut E) {
    if let Some(cause) = address_cause(address) {
        let _ = writeln!(faults, "{address}: {cause}");
    }
}
