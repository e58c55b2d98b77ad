//! Laws of the definitions, each as the contract of a function.
ghost use Rattle.unit_law.specs.OwnOutputs.{EarlierFirst, OutputsAreOwn};
ghost use Rattle.unit_law.specs.Played.{JournalSplits, LegalIsPlayed};

/// The outputs of an entry that is neither a tick nor a segment handed to a reassembly are those of its own event, its own answer and the
/// count of units that were cut into segments before it; those of an event by which nothing is cut are of it and its answer alone.
/// Nothing from the network is cut where every point takes an LUDT.
#[tactic(auto, using(crate::proofs::Owning::are_own))]
pub fn outputs_are_own()
    ensures { OutputsAreOwn }
{}

/// So the outputs of an earlier entry stand before those of a later one.
#[tactic(auto, using(crate::proofs::Owning::earlier))]
pub fn earlier_first()
    ensures { EarlierFirst }
{}

/// A journal is legal exactly where its entries have the routings that are asked and the outputs that one run over their events and answers gives.
#[tactic(auto, using(crate::proofs::Playing::is_played))]
pub fn legal_is_played()
    ensures { LegalIsPlayed }
{}

/// A journal parts anywhere: it is legal exactly where its first part is, and its second one from what the first leaves.
#[tactic(auto, using(crate::proofs::Splitting::splits))]
pub fn journal_splits()
    ensures { JournalSplits }
{}
