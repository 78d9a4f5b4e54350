// The status in which a node opens.

ghost use Rattle.std.specs.List.{list_any};
ghost use Rattle.std.specs.Prelude.{◌≡◌, ◌==◌, if◌then◌else◌};
ghost use Rattle.post.specs.Numbers.{NodesShowHowTheyOpen, opening_status};

use ballot_base::{Config, Role, Status};

/// Returns the status of the node of this number as it opens in ballot 1 of this configuration.
pub(crate) fn opening_status(number: u8, config: &Config) -> Status
    ensures { result ≡ opening_status number config.now }
{
    Status {
        ballot: opening_ballot(number, config),
        role: opening_role(number, config),
        held: 0,
        committed: 0,
        stopped: false,
    }
}

/// States that this is what a node shows that has just opened.
pub fn nodes_show_how_they_open()
    ensures { NodesShowHowTheyOpen }
{}

fn opening_ballot(number: u8, config: &Config) -> u64
    ensures { result ≡ (opening_status number config.now).ballot }
{
    if is_member(number, config.members.as_slice()) {
        1
    } else {
        0
    }
}

fn is_member(number: u8, members: &[u8]) -> bool
    ensures { result ≡ list_any (λ member. member == number) members.now }
{
    members.iter().any(|member| *member == number)
}

fn opening_role(number: u8, config: &Config) -> Role
    ensures { result ≡ (opening_status number config.now).role }
{
    if number == config.primary {
        Role::Active
    } else {
        Role::Backup
    }
}
