use std::marker::Brand;

/// Which run it is: the log, how many nodes there are, their first configuration, and whether links
/// bring them messages of other programs. A program picks it once, so everything of one name is
/// about one log.
pub trait RunNaming {
    ghost use Rattle.std.specs.Prelude.{ℕ, Bool};
    ghost use Rattle.logbook.specs.Pages.{Book};
    ghost use Rattle.ballot_base.specs.declared.config.Config.{Config};

    ghost book: { Book };

    ghost nodes: { ℕ };

    ghost config: { Config };

    ghost linked: { Bool };
}

impl RunNaming for Brand {
    ghost use Rattle.std.specs.Prelude.{[], false};

    ghost book = { record { number = 0; log_name = 0; cells_name = 0 } };

    ghost nodes = { 0 };

    ghost config = { record { members = []; primary = 0 } };

    ghost linked = { false };
}
