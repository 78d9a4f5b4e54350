// How texts are shown that came in place of others.

/// How many bytes of a text are shown.
pub(crate) const SHOWN: usize = 8;

/// Returns the first bytes of a text, and zeros after the last.
pub(crate) fn front_of(text: &str) -> [u8; SHOWN] {
    let mut front = [0; SHOWN];
    for (to, byte) in front.iter_mut().zip(text.as_bytes()) {
        *to = *byte;
    }
    front
}
