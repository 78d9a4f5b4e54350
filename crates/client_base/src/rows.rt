// A worked example of a limit.

ghost use Rattle.std.specs.Prelude.{◌≡◌};
ghost use Rattle.client_base.specs.Publications.{max_kept};

/// Shows how many publications a client keeps at most, 64.
pub fn sixty_four_are_kept()
    ensures { max_kept ≡ 64 }
{}
