// The lines of a script.

ghost use Rattle.std.specs.Prelude.{◌≡◌, IfOk};
ghost use Rattle.script.specs.Fields.{texts};
ghost use Rattle.script.specs.Scripts.{lines_of, without_last_feed};

use std::alloc::{AllocError, Global};

/// Returns the parts between line feeds. The last line feed may be missing.
pub(crate) fn lines_of<'a>(alloc: Global, text: &'a [u8]) -> Result<Vec<&'a [u8]>, AllocError>
    ensures { IfOk result (λ lines. texts lines.items ≡ lines_of text.now) }
{
    without_last_feed(text)
        .split(|byte| *byte == b'\n')
        .collect(alloc)
}

// Returns the text without a line feed at its end.
fn without_last_feed(text: &[u8]) -> &[u8]
    ensures { result.now ≡ without_last_feed text.now }
{
    match text {
        [front @ .., b'\n'] => front,
        _ => text,
    }
}
