//! Laws of the definitions, each as the contract of a function.
ghost use Rattle.conn_journal.specs.Laws.{KeepsAll};

/// What is kept of the openings is all that a lane needs of them.
#[tactic(auto, using(crate::proofs::Keeps::keeps_all))]
pub fn keeps_all()
    ensures { KeepsAll }
{}
