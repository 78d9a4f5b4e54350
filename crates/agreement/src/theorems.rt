// Theorems about groups with changes of configuration: the contracts of functions with an empty
// body.

ghost use Rattle.agreement.specs.Theorems.{
  AgreedGrows,
  AnswersAtTheNextPlaces,
  AnswersWhileItLeads,
  HasAgreed,
  KeepsTheOrder,
  MachinesReplay,
  NodesAgree,
  OneNodeTakesABallot,
  OnePrimaryABallot,
  TakenStandAtOnce,
};

use machine::Machine;

/// States that at each moment of a group there is an agreed list: the longest that is chosen in a
/// ballot that was active.
pub fn has_agreed<M: Machine>()
    ensures { HasAgreed M.rules }
{}

/// States that the nodes agree on it: what is applied anywhere is a prefix of it, and each member
/// of the active configuration holds it. Of two logs installed in one ballot one is a prefix of the
/// other, and some node holds it. What left is the machine's outputs at places of it, each place at
/// most once. All that one ballot gave left before all that a higher one gave, and in one ballot in
/// rising order.
pub fn nodes_agree<M: Machine>()
    ensures { NodesAgree M.rules }
{}

/// States that what is agreed is a prefix of what is agreed at the next moment, whatever happens in
/// between.
pub fn agreed_grows<M: Machine>()
    ensures { AgreedGrows M.rules }
{}

/// States that the machine of each node that runs is the replay of the places that it applied,
/// whichever log it was handed.
pub fn machines_replay<M: Machine>()
    ensures { MachinesReplay M.rules }
{}

/// States that each log has, of the commands that were taken only in one ballot, a prefix in the
/// order of proposing. The moments say which were taken: those by which a log grew.
pub fn keeps_the_order<M: Machine>()
    ensures { KeepsTheOrder M.rules }
{}

/// States that what a node takes in a step is at once at the end of its log. The node is the active
/// primary of the ballot in which it is counted; a proposal that is not taken changes no log.
pub fn taken_stand_at_once<M: Machine>()
    ensures { TakenStandAtOnce M.rules }
{}

/// States that a ballot has one active primary: two nodes that were active in it, at any moments,
/// are one.
pub fn one_primary_a_ballot<M: Machine>()
    ensures { OnePrimaryABallot M.rules }
{}

/// States that all that was taken in a ballot was taken by the node that was its active primary, in
/// that order.
pub fn one_node_takes_a_ballot<M: Machine>()
    ensures { OneNodeTakesABallot M.rules }
{}

/// States that in a step the outputs of the active primary are the machine's answers at the next
/// places of the agreed list: those that it applied in that step. Any other node outputs nothing. A
/// node that becomes the active primary outputs nothing for what its log had before.
pub fn answers_at_the_next_places<M: Machine>()
    ensures { AnswersAtTheNextPlaces M.rules }
{}

/// States that while a node is the active primary of one ballot it outputs the answers at all
/// places of the agreed list, from one moment to another. None is left out, and none comes twice.
pub fn answers_while_it_leads<M: Machine>()
    ensures { AnswersWhileItLeads M.rules }
{}
