// A worked example of the greatest number of a member.

ghost use Rattle.std.specs.Prelude.{◌≡◌, [], ◌∷◌, None, Some};
ghost use Rattle.agreement.specs.MasterState.{opening_master, refusal};
ghost use Rattle.agreement.specs.MasterState.AssignRefusal.{bad_members};
ghost use Rattle.ballot_base.specs.LawfulConfig.{max_node, max_number};
ghost use Rattle.master.specs.Rows.{sole};

/// Shows the last number that a master takes: 15, or 254 where it was opened with that bound.
pub fn members_end_at_the_bound_of_the_master()
    ensures fifteen { refusal (opening_master max_node (sole 1)) (sole 15) ≡ None }
    ensures sixteen { refusal (opening_master max_node (sole 1)) (sole 16) ≡ Some bad_members }
    ensures last { refusal (opening_master max_number (sole 1)) (sole 254) ≡ None }
    ensures past { refusal (opening_master max_number (sole 1)) (sole 255) ≡ Some bad_members }
{}
