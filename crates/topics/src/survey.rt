// One pass over the bytes of a text, which finds all that both kinds of text are checked for.

ghost use Rattle.std.specs.Prelude.{◌≡◌};
ghost use Rattle.topics.specs.Text.{contains_byte, has_no_wildcard, is_shallow};

/// The most levels that this broker accepts.
const MAX_LEVELS: usize = 32;

/// What one pass over a text finds.
#[derive(Clone, Copy)]
pub(crate) struct Survey {
    /// Whether U+0000 is in it.
    pub(crate) has_null: bool,
    /// Whether neither `+` nor `#` is in it.
    pub(crate) has_no_wildcard: bool,
    /// Whether it has at most 32 levels.
    pub(crate) is_shallow: bool,
}

impl Survey {
    /// Reads the text once and returns what was found.
    #[tactic(auto, using(crate::proofs::OnePass::shallow_is))]
    pub(crate) fn of(text: &[u8]) -> Survey
        ensures null { result.has_null ≡ contains_byte 0 text.now }
        ensures wildcard { result.has_no_wildcard ≡ has_no_wildcard text.now }
        ensures shallow { result.is_shallow ≡ is_shallow text.now }
    {
        let mut null = false;
        let mut wildcard = false;
        let mut slashes = 0usize;
        let mut rest = text;
        while let [byte, after @ ..] = rest {
            null |= *byte == 0;
            wildcard |= *byte == b'+' || *byte == b'#';
            slashes += usize::from(*byte == b'/');
            rest = after;
        }
        Survey {
            has_null: null,
            has_no_wildcard: !wildcard,
            is_shallow: slashes < MAX_LEVELS,
        }
    }
}
