// Saying which word of the command line is refused, and why.

use command_line::{Job, Publish, Subscribe};
use std::io::Write;

// The numbers of refusals that words of the command line may have; `docs/MANUAL.md` has all.
const TOO_LARGE: u8 = 4;

const TEXT: u8 = 5;

const IDENTIFIER: u8 = 6;

const TOPIC: u8 = 8;

const FILTER: u8 = 9;

const TOO_DEEP: u8 = 14;

const BAD_MEMBERS: u8 = 20;

/// Prints in one line which word of a job is refused with a number, and why. Prints nothing for a
/// number that is about no word.
pub(crate) fn print_refused<E: Write>(job: &Job<'_>, number: u8, faults: &mut E) {
    let (Some(why), Some((name, word))) = (reason(number), refused_word(job, number)) else {
        return;
    };
    // (there is nowhere else to print it; a message that is too large is not printed)
    let _ = if number == TOO_LARGE {
        writeln!(faults, "--{name} {why}")
    } else {
        writeln!(faults, "--{name} {word:?} {why}")
    };
}

// Returns why a word is refused with this number.
fn reason(number: u8) -> Option<&'static str> {
    match number {
        TOO_LARGE => Some("makes a packet of more than 1048576 bytes"),
        TEXT => Some("has U+0000"),
        IDENTIFIER => Some("does not have 1 to 64 bytes"),
        TOPIC => Some("is empty, has over 65535 bytes, or has a wildcard"),
        FILTER => Some("is empty, has over 65535 bytes, or has a wildcard out of its place"),
        TOO_DEEP => Some("has more than 32 levels"),
        BAD_MEMBERS => Some("is no list of members, as 1,2"),
        _ => None,
    }
}

// Returns the name of the option whose word is refused with this number, and the word.
fn refused_word<'a>(job: &Job<'a>, number: u8) -> Option<(&'static str, &'a str)> {
    match job {
        Job::Serve(_) => None,
        Job::Publish(job) => Some(word_of_publish(job, number)),
        Job::Subscribe(job) => Some(word_of_subscribe(job, number)),
        Job::Play(job) => match &job.escape {
            Some(escape) if number == BAD_MEMBERS => Some(("escape", escape.members)),
            Some(escape) => Some(("client", escape.client)),
            None => None,
        },
    }
}

// Returns the word of `pub` that is refused with this number. The identifier is looked at first.
fn word_of_publish<'a>(job: &Publish<'a>, number: u8) -> (&'static str, &'a str) {
    if is_of_identifier(job.id, number) {
        ("id", job.id)
    } else if number == TOO_LARGE {
        ("message", job.message)
    } else {
        ("topic", job.topic)
    }
}

// Returns the word of `sub` that is refused with this number. The identifier is looked at first.
fn word_of_subscribe<'a>(job: &Subscribe<'a>, number: u8) -> (&'static str, &'a str) {
    if is_of_identifier(job.id, number) {
        ("id", job.id)
    } else {
        ("filter", job.filter)
    }
}

// Returns true if a refusal with this number is about the identifier, which is looked at first.
fn is_of_identifier(id: &str, number: u8) -> bool {
    number == IDENTIFIER || (number == TEXT && id.contains('\0'))
}
