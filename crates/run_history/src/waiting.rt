// Cases that do not occur, though no clause can say so.

ghost use Rattle.std.specs.Prelude.{◌≡◌, ◌<◌};

use std::sync::Wait;

/// Never returns.
pub(crate) fn wait_for_ever<R: Wait>(rt: &R)
    ensures { ⊥ }
{
    for _ in rt.forever() {}
    unreachable!()
}

/// Returns only if both numbers are equal.
pub(crate) fn wait_unless_equal<R: Wait>(rt: &R, left: u64, right: u64)
    ensures { left ≡ right }
{
    if left != right {
        wait_for_ever(rt);
    }
}

/// Returns only if the number is below the limit.
pub(crate) fn wait_unless_below<R: Wait>(rt: &R, number: u64, limit: u64)
    ensures { number < limit }
{
    if number >= limit {
        wait_for_ever(rt);
    }
}
