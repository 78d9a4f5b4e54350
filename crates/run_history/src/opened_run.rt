// How a run opens.
//
// The words are made before the run has a name, so that a program can pick the name by them.

ghost use Rattle.std.specs.List.{list_all};
ghost use Rattle.std.specs.Prelude.{◌≡◌, ◌+◌, ◌<◌, IfOk, IsErrOf, OnOk, false, nat_le, true};
ghost use Rattle.agreement.specs.MasterState.{opening_master};
ghost use Rattle.agreement.specs.World.{can_open};
ghost use Rattle.ballot_base.specs.LawfulConfig.{max_node, max_number};
ghost use Rattle.world_base.specs.node_core.Core.{opening_core};
ghost use Rattle.run_history.specs.Linked.{greatest_in};
ghost use Rattle.run_history.specs.Log.{opening_log};

use crate::event::{OpenedGroup, RunEvent};
use crate::links_on_record::LinksOnRecord;
use crate::master_on_record::MasterOnRecord;
use crate::naming::RunNaming;
use crate::node_on_record::NodeOnRecord;
use crate::rule::{Begin, RunRule};
use crate::seen_run::SeenRun;
use ballot_base::errors::OpeningError;
use ballot_base::{Config, MAX_NUMBER};
use logbook::{Pens, Seen, Start, Word};
use master::{Master, can_open, config_of};
use std::alloc::Global;
use std::marker::{Model, PhantomData};
use world_base::NodeCore;

/// A run of a group that has just opened, without a name. Contracts see its book and its group.
#[derive(Drop)]
pub struct OpenedRun {
    seen: Seen<RunEvent, u64, RunRule>,
    pens: Pens,
    group: OpenedGroup,
}

impl Model for OpenedRun {
    ghost use Rattle.std.specs.Prelude.{◌≡◌, ◌+◌, true};
    ghost use Rattle.agreement.specs.World.{can_open};
    ghost use Rattle.run_history.specs.Linked.{greatest_in};
    ghost use Rattle.run_history.specs.Log.{opening_log};
    ghost use Rattle.run_history.specs.Parties.{OpenedView};

    ghost Value = { OpenedView };

    ghost view = { λ opened. record { book = opened.seen.book; group = opened.group } };

    ghost invariant = { λ opened. (can_open (greatest_in opened.group.linked) opened.group.nodes
        opened.group.config ≡ true)
        × (opened.seen.log
        ≡ opening_log opened.group.nodes opened.group.config opened.group.linked)
        × (opened.pens.book ≡ opened.seen.book) × (opened.pens.next ≡ 0)
        × (opened.pens.left ≡ opened.group.nodes + 1) };
}

impl OpenedRun {
    /// Opens a run of a group, with a word for the master and for each node.
    pub fn new(group: OpenedGroup) -> OpenedRun
        requires { can_open (greatest_in group.linked) group.nodes group.config ≡ true }
        ensures { result.group ≡ group }
    {
        let words = usize::from(group.nodes) + 1;
        let (seen, pens) = Seen::open_row::<OpenedGroup, Begin>(&group, Start::alone(), words);
        OpenedRun { seen, pens, group }
    }

    /// Opens a run of a group with this many nodes in this configuration, all of them in this
    /// program, if such a group can open. Returns it with its master. Fails with `BadMembers` if it cannot: there
    /// are more than 15 nodes, no ballot may have the configuration, or a member is none of the
    /// nodes. The other error is that memory ran out.
    pub fn open(
        alloc: Global,
        nodes: u8,
        config: &Config,
    ) -> Result<(OpenedRun, Master), OpeningError>
        ensures group { IfOk result (λ opened.
            opened.0.group ≡ record { nodes = nodes; config = config.now; linked = false }) }
        ensures master { IfOk result (λ opened.
            opened.1 ≡ opening_master max_node config.now) }
        ensures can { OnOk result (can_open max_node nodes config.now ≡ true) }
        ensures bad { IsErrOf result OpeningError.BadMembers →
            can_open max_node nodes config.now ≡ false }
    {
        if !can_open(nodes, config) {
            return Err(OpeningError::BadMembers);
        }
        let first = config_of(alloc, config)?;
        let Ok(master) = Master::new(first.members, first.primary) else {
            unreachable!()
        };
        let group = OpenedGroup {
            nodes,
            config: config_of(alloc, config)?,
            linked: false,
        };
        Ok((OpenedRun::new(group), master))
    }

    /// Opens a run of linked nodes 1 to this number in this configuration, if such a group can open.
    /// Fails with `BadMembers` if it cannot: there are more than 254 nodes, no ballot may have the
    /// configuration, or a member is none of the nodes. The other error is that memory ran out.
    pub fn open_linked(alloc: Global, nodes: u8, config: &Config) -> Result<OpenedRun, OpeningError>
        ensures group { IfOk result (λ opened.
            opened.group ≡ record { nodes = nodes; config = config.now; linked = true }) }
        ensures can { OnOk result (can_open max_number nodes config.now ≡ true) }
        ensures bad { IsErrOf result OpeningError.BadMembers →
            can_open max_number nodes config.now ≡ false }
    {
        if !can_open_linked(nodes, config) {
            return Err(OpeningError::BadMembers);
        }
        let group = OpenedGroup {
            nodes,
            config: config_of(alloc, config)?,
            linked: true,
        };
        Ok(OpenedRun::new(group))
    }

    /// Gives the run its name. Returns its one master on record, what puts the nodes on record, and
    /// the log as it opens.
    pub fn named<H: RunNaming>(
        self,
        master: Master,
    ) -> (MasterOnRecord<H>, NodeMaker<H>, SeenRun<H>)
        requires book { self.book ≡ H.book }
        requires nodes { self.group.nodes ≡ H.nodes }
        requires config { self.group.config ≡ H.config }
        requires group { self.group.linked ≡ H.linked }
        requires own { H.linked ≡ false }
        requires master { master ≡ opening_master max_node H.config }
        ensures master { result.0 ≡ record {
          state = opening_master max_node H.config;
          log = opening_log H.nodes H.config H.linked;
        } }
        ensures maker { result.1 ≡ 0 }
        ensures log { result.2 ≡ opening_log H.nodes H.config H.linked }
    {
        let OpenedRun {
            seen,
            mut pens,
            group: _group,
        } = self;
        let mut pen = pens.take();
        let word = Word::tracked(0, &mut pen);
        let seen = SeenRun::new(seen);
        (
            MasterOnRecord::new(master, word, seen.again()),
            NodeMaker {
                pens,
                of: PhantomData,
            },
            seen,
        )
    }
}

impl OpenedRun {
    /// Gives a run of linked nodes its name. Returns what puts on record what links bring, what puts
    /// the nodes on record, and the log as it opens. The master is in another program.
    pub fn named_linked<H: RunNaming>(self) -> (LinksOnRecord<H>, NodeMaker<H>, SeenRun<H>)
        requires book { self.book ≡ H.book }
        requires nodes { self.group.nodes ≡ H.nodes }
        requires config { self.group.config ≡ H.config }
        requires group { self.group.linked ≡ H.linked }
        requires linked { H.linked ≡ true }
        ensures links { result.0 ≡ opening_log H.nodes H.config H.linked }
        ensures maker { result.1 ≡ 0 }
        ensures log { result.2 ≡ opening_log H.nodes H.config H.linked }
    {
        let OpenedRun {
            seen,
            mut pens,
            group: _group,
        } = self;
        let mut pen = pens.take();
        let word = Word::tracked(0, &mut pen);
        let seen = SeenRun::new(seen);
        let maker = NodeMaker {
            pens,
            of: PhantomData,
        };
        (LinksOnRecord::new(word, seen.again()), maker, seen)
    }
}

/// Puts the nodes of a run on record, one after another. Contracts see it as the next index.
#[derive(Drop)]
pub struct NodeMaker<H: RunNaming> {
    pens: Pens,
    of: PhantomData<H>,
}

impl<H: RunNaming> Model for NodeMaker<H> {
    ghost use Rattle.std.specs.Prelude.{◌≡◌, ◌+◌, ◌-◌, ◌<◌, ℕ};

    ghost Value = { ℕ };

    ghost view = { λ maker. maker.pens.next - 1 };

    ghost invariant = { λ maker. (maker.pens.book ≡ H.book) × (0 < maker.pens.next)
        × (maker.pens.next + maker.pens.left ≡ H.nodes + 1) };
}

impl<H: RunNaming> NodeMaker<H> {
    /// Puts the node at the next index on record, as it opened.
    pub fn make(&mut self, seen: &SeenRun<H>, core: NodeCore, index: u8) -> NodeOnRecord<H>
        requires index { index ≡ self.old }
        requires below { index < H.nodes }
        requires log { seen.now ≡ opening_log H.nodes H.config H.linked }
        requires core { core.core ≡ opening_core (index + 1) H.config }
        ensures node { result ≡ record { index = index; node = core; log = seen.now } }
        ensures next { self.new ≡ index + 1 }
    {
        let mut pen = self.pens.take();
        let word = Word::tracked(0, &mut pen);
        NodeOnRecord::new(index, core, word, seen.again())
    }
}

// Returns true if this many linked nodes, at most 254, may open in a configuration.
fn can_open_linked(nodes: u8, config: &Config) -> bool
    ensures { result ≡ can_open max_number nodes config.now }
{
    nodes <= MAX_NUMBER
        && (config.is_lawful_up_to(MAX_NUMBER) && are_nodes(config.members.as_slice(), nodes))
}

// Returns true if all members are among nodes 1 to `nodes`.
fn are_nodes(members: &[u8], nodes: u8) -> bool
    ensures { result ≡ list_all (λ member. nat_le member nodes) members.now }
{
    members.iter().all(|member| *member <= nodes)
}
