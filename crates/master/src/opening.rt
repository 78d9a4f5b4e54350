// Which configurations a group may open with.

ghost use Rattle.std.specs.Prelude.{◌≡◌, nat_le};
ghost use Rattle.std.specs.List.{list_all};
ghost use Rattle.agreement.specs.World.{can_open};
ghost use Rattle.ballot_base.specs.LawfulConfig.{max_node};

use ballot_base::{Config, MAX_NODE};

/// Returns true if this many nodes, at most [`MAX_NODE`], may open in a configuration.
pub fn can_open(nodes: u8, config: &Config) -> bool
    ensures { result ≡ can_open max_node nodes config.now }
{
    nodes <= MAX_NODE && (config.is_lawful() && are_nodes(config.members.as_slice(), nodes))
}

// Returns true if all members are among nodes 1 to `nodes`.
fn are_nodes(members: &[u8], nodes: u8) -> bool
    ensures { result ≡ list_all (λ member. nat_le member nodes) members.now }
{
    members.iter().all(|member| *member <= nodes)
}
