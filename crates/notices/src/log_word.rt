// The word of the command line that chooses which lines are told.

ghost use Rattle.std.specs.Prelude.{◌≡◌};
ghost use Rattle.notices.specs.LogWords.{log_filter};

use log::LevelFilter;

/// Returns what a word lets through: `off` nothing, `error`, `warn`, `info` or `debug` that level
/// and those above it, in any case; `None` for another word.
pub fn log_filter(word: &str) -> Option<LevelFilter>
    ensures { result ≡ log_filter word.now }
{
    match word.parse() {
        Ok(LevelFilter::Trace) | Err(_) => None,
        Ok(filter) => Some(filter),
    }
}
