// Splitting a text into levels.

ghost use Rattle.std.specs.Prelude.{◌≡◌, ◌∷◌, ◌||◌, codes, bytes_eq};
ghost use Rattle.topics.specs.Text.{levels, levels_of, has_length, has_no_wildcard, is_last};

/// The most bytes of a topic or a filter (MQTT 4.7.3).
const MAX_TEXT_BYTES: usize = 65_535;

/// Returns a text's first level, which may be empty (MQTT 4.7.1.1), and what follows its `/`, if
/// one is there. Takes no memory; its time grows with the bytes of the level, which no clause says.
#[tactic(auto, using(crate::proofs::LevelByLevel::levels_cut, crate::proofs::LevelByLevel::levels_whole))]
pub fn split_level(text: &[u8]) -> (&[u8], Option<&[u8]>)
    ensures { levels text.now ≡ result.0.now ∷ levels_of result.1 }
{
    for (i, byte) in text.iter().enumerate() {
        if *byte == b'/' {
            return (&text[..i], Some(&text[i + 1..]));
        }
    }
    (text, None)
}

/// Returns true if nothing follows the level.
#[tactic(auto, using(crate::proofs::LevelByLevel::is_last_levels))]
pub(crate) fn is_last(rest: Option<&[u8]>) -> bool
    ensures { result ≡ is_last (levels_of rest.entry) }
{
    match rest {
        Some(_) => false,
        None => true,
    }
}

/// Returns true if a text has 1 to 65,535 bytes (MQTT 4.7.3).
pub(crate) fn has_length(text: &[u8]) -> bool
    ensures { result ≡ has_length text.now }
{
    !text.is_empty() && text.len() <= MAX_TEXT_BYTES
}

/// Returns true if neither `+` nor `#` is in a text (MQTT 4.7.1).
pub fn has_no_wildcard(text: &[u8]) -> bool
    ensures { result ≡ has_no_wildcard text.now }
{
    !text.contains(&b'+') && !text.contains(&b'#')
}

/// Returns true if the level is `+`, which matches any one level.
pub(crate) fn is_plus(level: &[u8]) -> bool
    ensures { result ≡ bytes_eq level.now (codes "+") }
{
    level == b"+".as_slice()
}

/// Returns true if the level is `#`, which matches all levels that are left.
pub(crate) fn is_hash(level: &[u8]) -> bool
    ensures { result ≡ bytes_eq level.now (codes "#") }
{
    level == b"#".as_slice()
}
