//! A law of the definitions, as the contract of a function.
ghost use Rattle.capture_input.specs.AuditLaw.{JoinedReadsBack};

/// A capture, a line `%%%` and a text in one input are read as that capture and that text.
#[tactic(auto, using(crate::proofs::Joined::joined_reads_back))]
pub fn joined_reads_back()
    ensures { JoinedReadsBack }
{}
