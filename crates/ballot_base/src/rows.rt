// Worked examples of limits.

ghost use Rattle.std.specs.Prelude.{◌≡◌, true, false, [], ◌∷◌};
ghost use Rattle.ballot_base.specs.LawfulConfig.{is_lawful, max_node, max_number};
ghost use Rattle.ballot_base.specs.Service.{max_places};

/// Shows the maximum length of a log, 2^40 places.
pub fn a_log_ends_at_its_limit()
    ensures { max_places ≡ 1099511627776 }
{}

/// Shows which numbers members may have: 1 to 15 in a table, a script or a world, and 1 to 254 in
/// any cluster.
pub fn numbers_end_at_their_bounds()
    ensures fifteen { is_lawful max_node (1 ∷ 15 ∷ []) 15 ≡ true }
    ensures sixteen { is_lawful max_node (1 ∷ 16 ∷ []) 16 ≡ false }
    ensures last { is_lawful max_number (1 ∷ 254 ∷ []) 254 ≡ true }
    ensures past { is_lawful max_number (1 ∷ 255 ∷ []) 255 ≡ false }
    ensures first { is_lawful max_number (0 ∷ 1 ∷ []) 1 ≡ false }
{}
