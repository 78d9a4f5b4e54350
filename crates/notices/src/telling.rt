// Notices as lines of a log.

ghost use Rattle.std.specs.Prelude.{◌≡◌, ◌/◌, [], IfSome};
ghost use Rattle.notices.specs.Kinds.{kind_level};
ghost use Rattle.notices.specs.Limits.{admitted, HasNothingDue};
ghost use Rattle.notices.specs.Lines.{notice_kind};

use crate::limiter::{HeldBack, Limiter};
use crate::notice::Notice;
use crate::window::Admission;
use log::{Log, log, log_enabled};

/// Logs a notice as one line if its level is told and it is among the first ten of its kind in
/// this second; otherwise counts it. A line before it says how many were held back in earlier
/// seconds. A notice whose level is not told is not counted.
pub fn tell<R: Log>(rt: &R, limiter: &mut Limiter, now_millis: u64, notice: &Notice<'_>)
    ensures { IfSome (R.enables rt.now (kind_level (notice_kind notice.now)) []) (λ is_told.
        limiter.new ≡ admitted is_told limiter.old (notice_kind notice.now) (now_millis / 1000)) }
{
    let kind = notice.kind();
    let level = kind.level();
    if !log_enabled!(rt; target: "", level) {
        return;
    }
    if let Admission::Told(before) = limiter.admit(now_millis, kind) {
        if 0 < before {
            let held = HeldBack {
                kind,
                count: before,
            };
            log!(rt; target: "", level, "{held}");
        }
        log!(rt; target: "", level, "{notice}");
    }
}

/// Logs how many notices of each kind were held back in earlier seconds and not told of yet. To be
/// called now and then, so that the end of a burst is told of too.
pub fn tell_held_back<R: Log>(rt: &R, limiter: &mut Limiter, now_millis: u64)
    ensures { HasNothingDue limiter.new (now_millis / 1000) }
{
    while let Some(held) = limiter.take_held_back(now_millis) {
        log!(rt; target: "", held.kind.level(), "{held}");
    }
}
