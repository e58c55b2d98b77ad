//! Laws of the run, each as the contract of a function.
ghost use Rattle.passage_law.specs.Beginning.{NothingBefore};
ghost use Rattle.passage_law.specs.Fair.{OthersAreStrange};
ghost use Rattle.passage_law.specs.Freshness.{FreshBefore};
ghost use Rattle.passage_law.specs.Links.{LinksKeepOrder};
ghost use Rattle.passage_law.specs.Nodes.{NodesStand};
ghost use Rattle.passage_law.specs.Once.{CrComesOnce};
ghost use Rattle.passage_law.specs.Own.{NamesNoOther};
ghost use Rattle.passage_law.specs.References.{NamesWhatWasGiven};
ghost use Rattle.passage_law.specs.Ways.{AllGoOn};

/// Each node keeps its number and its routing data, and its journal is a legal one whose entries are routed by these data.
#[tactic(auto, using(crate::proofs::RowStanding::nodes_stand))]
pub fn nodes_stand()
    ensures { NodesStand }
{}

/// What arrived at a node from a neighbour is the first of what that neighbour sent there, in order, and what waits is the rest.
#[tactic(auto, using(crate::proofs::Linking::links_keep_order))]
pub fn links_keep_order()
    ensures { LinksKeepOrder }
{}

/// A message that a node sends names, as its destination, a reference that the node there gave to a section to it, and where it leaves on a section whose
/// other end is known, that of the section which asked for it or which it asked.
#[tactic(auto, using(crate::proofs::Referring::names_what_was_given))]
pub fn names_what_was_given()
    ensures { NamesWhatWasGiven }
{}

/// Where no node gave a reference twice, none had before the last step.
pub fn fresh_before()
    ensures { FreshBefore }
{}

/// Where no node gave a reference twice, a message names no section of the node to which it goes but one to its sender.
#[tactic(auto, using(crate::proofs::Own::names_no_other))]
pub fn names_no_other()
    ensures { NamesNoOther }
{}

/// Where no node gave a reference twice, no two messages that arrived from a neighbour are CR with one source.
pub fn cr_comes_once()
    ensures { CrComesOnce }
{}

/// Each connection of a node goes on to the next node, or to a user: CR is never sent back, nor beyond the last node.
#[tactic(auto, using(crate::proofs::Ways::all_go_on))]
pub fn all_go_on()
    ensures { AllGoOn }
{}

/// Where no node gave a reference twice, what the other connections of two neighbours send to each other names none of the two sections of a connection that
/// they have with each other, or it is ERR or RLC.
pub fn others_are_strange()
    ensures { OthersAreStrange }
{}

/// At the step that opens a connection by CR, nothing that the two nodes sent to each other until then names its two sections, or it is ERR or RLC, where no
/// node gave a reference twice.
pub fn nothing_before()
    ensures { NothingBefore }
{}
