//! Laws of the definitions, each as the contract of a function.
ghost use Rattle.lane_law.specs.Played.{JournalSplits, LegalIsPlayed};

/// A journal is legal exactly where its entries have the routings that are asked and the outputs that one run over their events and answers gives.
#[tactic(auto, using(crate::proofs::Playing::is_played))]
pub fn legal_is_played()
    ensures { LegalIsPlayed }
{}

/// A journal parts anywhere: it is legal exactly where its first part is, and its second one from the openings that the first leaves.
#[tactic(auto, using(crate::proofs::Splitting::splits))]
pub fn journal_splits()
    ensures { JournalSplits }
{}
