// Theorems about groups whose nodes cut their logs: the contracts of functions with an empty body.

ghost use Rattle.agreement.specs.cut_logs.Theorems.{
  AgreedGrows,
  HasAgreed,
  LogsAreCutRight,
  MachinesReplay,
  NodesAgree,
  OnePrimaryABallot,
  SentLogsAreRight,
  SnapshotsAreRead,
};
ghost use Rattle.agreement.specs.cut_logs.Orders.{
  AnswersAtTheNextPlaces,
  AnswersWhileItLeads,
  KeepsTheOrder,
  OneNodeTakesABallot,
  TakenStandAtOnce,
};

use machine::Machine;

/// States that at each moment of a group there is an agreed list: the longest that is chosen in a
/// ballot that was active. It is a list of whole logs: what a node has cut is taken from the
/// record.
pub fn has_agreed<M: Machine>()
    ensures { HasAgreed M.rules }
{}

/// States that the nodes agree on it: what is applied anywhere is a prefix of it, and each member
/// of the active configuration holds it. Of two logs installed in one ballot one is a prefix of the
/// other, and some node holds it. What left is the machine's outputs at places of it, each place at
/// most once. The record of places is a prefix of it.
pub fn nodes_agree<M: Machine>()
    ensures { NodesAgree M.rules }
{}

/// States that what is agreed is a prefix of what is agreed at the next moment, whatever happens in
/// between, including cuts.
pub fn agreed_grows<M: Machine>()
    ensures { AgreedGrows M.rules }
{}

/// States that the machine of each node that runs is the replay of the places that it applied, also
/// if it came out of a snapshot.
pub fn machines_replay<M: Machine>()
    ensures { MachinesReplay M.rules }
{}

/// States that what a node has cut is in the record and was applied by it. Its snapshot is the
/// frozen replay of these places, and thaws to it.
pub fn logs_are_cut_right<M: Machine>()
    ensures { LogsAreCutRight M.rules }
{}

/// States that a log that was sent was cut correctly, too. Its base lies within the record, and its
/// snapshot is the frozen replay of the places below it, and thaws to that. So a replica that takes
/// it continues from the machine of a prefix of the list.
pub fn sent_logs_are_right<M: Machine>()
    ensures { SentLogsAreRight M.rules }
{}

/// States that a snapshot that has to be read is read: no node counts a message as lost because of
/// its snapshot.
pub fn snapshots_are_read<M: Machine>()
    ensures { SnapshotsAreRead M.rules }
{}

/// States that a ballot has one active primary: two nodes that were active in it, at any moments,
/// are one.
pub fn one_primary_a_ballot<M: Machine>()
    ensures { OnePrimaryABallot M.rules }
{}

/// States that each log has, of the commands that were taken only in one ballot, a prefix in the
/// order of proposing, whichever places of it were cut. The moments say which were taken: those by
/// which a log grew.
pub fn keeps_the_order<M: Machine>()
    ensures { KeepsTheOrder M.rules }
{}

/// States that what a node takes in a step is at once at the end of its log. The node is the active
/// primary of the ballot in which it is counted; a proposal that is not taken changes no log.
pub fn taken_stand_at_once<M: Machine>()
    ensures { TakenStandAtOnce M.rules }
{}

/// States that all that was taken in a ballot was taken by the node that was its active primary, in
/// that order.
pub fn one_node_takes_a_ballot<M: Machine>()
    ensures { OneNodeTakesABallot M.rules }
{}

/// States that in a step the outputs of the active primary are the machine's answers at the next
/// places of the agreed list: those that it applied in that step. Any other node outputs nothing. A
/// node that takes a snapshot outputs nothing for the places below it.
pub fn answers_at_the_next_places<M: Machine>()
    ensures { AnswersAtTheNextPlaces M.rules }
{}

/// States that while a node is the active primary of one ballot it outputs the answers at all
/// places of the agreed list, from one moment to another. None is left out, and none comes twice.
pub fn answers_while_it_leads<M: Machine>()
    ensures { AnswersWhileItLeads M.rules }
{}
