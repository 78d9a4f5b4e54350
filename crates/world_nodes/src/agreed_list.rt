// The list on which nodes agree.

ghost use Rattle.std.specs.Prelude.{ℕ, ◌≡◌, ◌-◌, ◌++◌, None, slice_get, IfSome};
ghost use Rattle.lists.specs.Lists.{In};
ghost use Rattle.master.specs.Inside.{HoldsAt, IsShort};
ghost use Rattle.world_nodes.specs.Agreed.{AgreeOn, AgreeOnSoMany};
ghost use Rattle.world_nodes.specs.Inside.{held_at, replicas_of};

use crate::nodes::Nodes;
use broker_spec::Command;

impl Nodes {
    /// Returns the agreed list, the longest that is chosen in a ballot that was active, in two
    /// parts: the second continues where the first ends. Its time does not depend on how much was
    /// sent, which no clause says.
    pub fn agreed(&self) -> (&[Command], &[Command])
        ensures { AgreeOn self.now (result.0.now ++ result.1.now) }
    {
        let held = self.agreed_len();
        let Some(at) = self.holder(held) else {
            return (&[], &[]);
        };
        let core = &self.nodes[at];
        let (base, _) = core.snapshot();
        if held <= base {
            return (&self.archive[..held as usize], &[]);
        }
        (
            &self.archive[..base as usize],
            &core.rest()[..(held - base) as usize],
        )
    }

    /// Returns the length of the agreed list. Its time does not depend on how much was sent.
    pub fn agreed_len(&self) -> u64
        ensures { AgreeOnSoMany self.now result }
    {
        let (_, members) = self.master.active();
        if members.len() == 1 {
            return self.held(members[0]);
        }
        self.counters.agreed_by(members)
    }

    // Returns the index of a member of the active ballot whose log has at least `held` places.
    fn holder(&self, held: u64) -> Option<usize>
        ensures some { IfSome result (λ at.
            HoldsAt (replicas_of self.now.nodes) self.now.master.members held at) }
        ensures none { result ≡ None → (member : ℕ) → In member self.now.master.members →
            IsShort (slice_get (replicas_of self.now.nodes) (member - 1)) held }
    {
        let (_, members) = self.master.active();
        for member in members {
            let at = member.saturating_sub(1) as usize;
            if at < self.nodes.len() && held <= self.nodes[at].status().held {
                return Some(at);
            }
        }
        None
    }

    // Returns the length of a node's log; 0 if the node does not exist.
    fn held(&self, node: u8) -> u64
        ensures { result ≡ held_at self.now.nodes node }
    {
        match self.nodes.get(node.saturating_sub(1) as usize) {
            Some(core) => core.status().held,
            None => 0,
        }
    }
}
