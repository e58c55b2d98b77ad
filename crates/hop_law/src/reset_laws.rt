//! Laws of the definitions, each as the contract of a function.
ghost use Rattle.hop_law.specs.ResetAnswering.{NoneAnswers, OpeningResetsNone, RscAnswersRsr};
ghost use Rattle.hop_law.specs.Coming.{RsrIsSent};

/// By one event a connection sends RSC only if the event is RSR for one of its sections.
pub fn rsc_answers_rsr()
    ensures { RscAnswersRsr }
{}

/// As long as no RSR comes for a section of it, a connection sends no RSC.
pub fn none_answers()
    ensures { NoneAnswers }
{}

/// The opening of a connection sends neither RSR nor RSC.
pub fn opening_resets_none()
    ensures { OpeningResetsNone }
{}

/// In a hop, as long as the connection at the one node sends no RSR, none waits for the section of the other one.
pub fn rsr_is_sent()
    ensures { RsrIsSent }
{}
