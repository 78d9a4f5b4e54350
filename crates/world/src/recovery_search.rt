// Finding a recovery of a world.

ghost use Rattle.std.specs.Prelude.{ℕ, ◌≡◌, ◌≤◌, ◌<◌, ◌+◌, ◌*◌, ◌↔◌, true, false, None, Some, length, slice_get, IfOk, IfSome, IsErrOf, OnOk};
ghost use Rattle.std.specs.List.{list_all, position};
ghost use Rattle.agreement.specs.MasterState.{refusal};
ghost use Rattle.broker_spec.specs.Commands.{past_of, usual_limits};
ghost use Rattle.broker_spec.specs.Sessions.{clean_session_of};
ghost use Rattle.world_nodes.specs.RecoveryChecks.{whole_log_of};
ghost use Rattle.world_pipes.specs.events.EscapeEvents.{connect_bytes};
ghost use Rattle.world_pipes.specs.Piped.{is_holding};
ghost use Rattle.world_pipes.specs.declared.clients.world_client.WorldClient.{WorldClient};
ghost use Rattle.world_nodes.specs.RunningNodes.{is_running, numbered_node};
ghost use Rattle.world.specs.Recovery.{CanEscape, LeadsClientOut, configuration_of, log_length_of};
ghost use Rattle.world.specs.Inside.RecoveryEvents.{IsFetchedFrom, escaping_events};

use crate::world::World;
use ballot_base::{Config, MAX_MEMBERS, MAX_PLACES, Members};
use machine::Memory;
use packet_base::ClientId;
use recovery::replicas::recoveries_are_short;
use std::alloc::Global;
use world_pipes::events::{EscapeError, Event, push_answers, push_client, push_group};

/// More messages than any memory holds.
const MAX_MESSAGES: u64 = 1 << 62;

impl World {
    /// Returns the events of a recovery of this world, at most 6n + 5 for n members. They lead to a
    /// ballot of these members, given with the first of them as its primary, and to the client
    /// online with its session present. Changes nothing.
    ///
    /// After [`World::run`] with these events, if no loss is counted, the ballot that is assigned
    /// next is active and has these members. Each of them runs, and the first serves clients as the
    /// ballot's primary. What was agreed before is a prefix of what is agreed.
    ///
    /// Fails with [`EscapeError::Idle`] if there is no recovery:
    ///
    /// - no ballot may have these members, or the last ballot was already assigned;
    /// - one of the members has stopped, or all members of the active configuration have;
    /// - the log that is to be fetched has no two places left;
    /// - the client is unknown, or has no session after that log.
    ///
    /// Fails with [`EscapeError::Memory`] if memory runs out.
    pub fn escape(&self, members: &[u8], client: &ClientId) -> Result<Vec<Event>, EscapeError>
        ensures short { IfOk result (λ events. length events.items ≤ 6 * length members.now + 5) }
        ensures leads_out { IfOk result
            (λ events. LeadsClientOut members.now client.now self.now events.items) }

        // Unless memory runs out, `Idle` comes exactly if there is no recovery.
        ensures idle { IsErrOf result EscapeError.Idle → CanEscape members.now client.now self.now →
            ⊥ }
        ensures can { OnOk result (CanEscape members.now client.now self.now) }
    {
        let config = configuration(self.alloc, members)?;
        if !self.can_lead(&config) {
            return Err(EscapeError::Idle);
        }
        let Some((index, source)) = self.fetched() else {
            return Err(EscapeError::Idle);
        };
        let Some(at) = self.index_of_client(client) else {
            return Err(EscapeError::Idle);
        };
        let name = self.clients[at].piped.core().client();
        if !self.has_session(source, name)? {
            return Err(EscapeError::Idle);
        }
        recoveries_are_short();
        Ok(self.recovery_events(config, client, index, at)?)
    }

    // Returns true if the master would assign the next ballot to a configuration, and all its
    // members run.
    fn can_lead(&self, config: &Config) -> bool
        ensures { (result ≡ true) ↔ ((refusal self.now.nodes.master config.now ≡ None)
            × (list_all (is_running self.now.nodes.nodes) config.now.members ≡ true)) }
    {
        self.nodes.can_assign(config) && self.are_running(config.members.as_slice())
    }

    fn are_running(&self, members: &[u8]) -> bool
        ensures { result ≡ list_all (is_running self.now.nodes.nodes) members.now }
    {
        members.iter().all(|member| self.is_running(*member))
    }

    // Returns the first running member of the active configuration, by index and number, if its log
    // has two places left.
    fn fetched(&self) -> Option<(usize, u8)>
        ensures some { IfSome result (λ found. IsFetchedFrom self.now found.0 found.1) }
        ensures none { result ≡ None → (index source : ℕ) → IsFetchedFrom self.now index source →
            ⊥ }
    {
        let index = self.first_running()?;
        let (_, members) = self.nodes.active();
        let source = members[index];
        if self.held(source) <= MAX_PLACES - 2 {
            Some((index, source))
        } else {
            None
        }
    }

    // Returns the index of the first running member of the active configuration.
    fn first_running(&self) -> Option<usize>
        ensures below { IfSome result (λ index. index < length self.now.nodes.master.members) }
        ensures exact { result
            ≡ position (is_running self.now.nodes.nodes) self.now.nodes.master.members }
    {
        let (_, members) = self.nodes.active();
        members.iter().position(|member| self.is_running(*member))
    }

    // Returns the length of a node's log; 0 if the node does not exist.
    fn held(&self, node: u8) -> u64
        ensures { result ≡ log_length_of (numbered_node self.now.nodes.nodes node) }
    {
        match self.nodes.node(node) {
            Some(core) => core.status().held,
            None => 0,
        }
    }

    fn is_running(&self, node: u8) -> bool
        ensures { result ≡ is_running self.now.nodes.nodes node }
    {
        self.nodes.is_running(node)
    }

    // Returns true if a client has a session that is not clean after the whole log of a node.
    fn has_session(&self, node: u8, client: &ClientId) -> Result<bool, Memory>
        ensures yes { IfOk result (λ has. has ≡ true
            → clean_session_of (past_of usual_limits (whole_log_of self.now.nodes node)) client.now
            ≡ Some false) }
        ensures no { IfOk result (λ has. has ≡ false
            → clean_session_of (past_of usual_limits (whole_log_of self.now.nodes node)) client.now
            ≡ Some false → ⊥) }
    {
        self.nodes.welcomes_back(node, client)
    }

    // Returns the events of a recovery for the client at an index, when the member at `index` of
    // the active configuration is asked for its log.
    fn recovery_events(
        &self,
        config: Config,
        client: &ClientId,
        index: usize,
        at: usize,
    ) -> Result<Vec<Event>, Memory>
        requires first { config ≡ configuration_of config.members }
        requires some { 1 ≤ length config.members }
        requires few { length config.members ≤ MAX_MEMBERS }
        requires placed { index < length self.now.nodes.master.members }
        requires there { at < length self.now.clients }
        ensures { IfOk result
            (λ events. (found : WorldClient) → slice_get self.now.clients at ≡ Some found →
            events.items ≡ escaping_events self.now config.members index (is_holding found.piped)
            client.now (connect_bytes + length found.piped.core.state.client)) }
    {
        let sent = self.nodes.messages();
        if sent > MAX_MESSAGES {
            return Err(Memory);
        }
        let (_, active) = self.nodes.active();
        let members = active.len() as u64;
        let others = config.members.as_slice().len() as u64 - 1;
        let primary = config.primary;
        let number = (self.connections.len() as u64).saturating_add(1);
        let mut out = Vec::new(self.alloc);
        push_group(self.alloc, &mut out, config, sent, members, index as u64)?;
        push_client(&mut out, &self.clients[at].piped, client, primary, number)?;
        let then = sent + members + 5 * others + 4;
        push_answers(self.alloc, &mut out, then, others, number)?;
        Ok(out)
    }
}

// Returns a configuration of these members, whose primary is the first of them.
fn configuration(alloc: Global, members: &[u8]) -> Result<Config, Memory>
    ensures { IfOk result (λ config. config ≡ configuration_of members.now) }
{
    let primary = primary_of(members);
    let members = Members::from_slice(alloc, members)?;
    Ok(Config { members, primary })
}

// Returns the first member; 0 if there is none.
fn primary_of(members: &[u8]) -> u8
    ensures { result ≡ (configuration_of members.now).primary }
{
    match members {
        [] => 0,
        [first, ..] => *first,
    }
}
