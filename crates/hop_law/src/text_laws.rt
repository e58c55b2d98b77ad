//! Laws of the definitions, each as the contract of a function.
ghost use Rattle.hop_law.specs.TextLaw.{CollectedSo, CutAndJoined, FewUnitsFewTexts};

/// Texts of an octet at least, cut into units one after another, are those texts when their units are put together.
#[tactic(auto, using(crate::proofs::Joining::cut_joined))]
pub fn cut_and_joined()
    ensures { CutAndJoined }
{}

/// The first units of texts make the first of these texts, and of the next one its first octets.
#[tactic(auto, using(crate::proofs::Joining::few_texts))]
pub fn few_units_few_texts()
    ensures { FewUnitsFewTexts }
{}

/// So a user's end puts them together, a unit after another, as long as no text is too long.
#[tactic(auto, using(crate::proofs::Collecting::collected))]
pub fn collected_so()
    ensures { CollectedSo }
{}
