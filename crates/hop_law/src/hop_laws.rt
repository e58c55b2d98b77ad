//! Laws of the definitions, each as the contract of a function.
ghost use Rattle.hop_law.specs.Answering.{IsAnswered};
ghost use Rattle.hop_law.specs.Confirming.{BecomesKnown};
ghost use Rattle.hop_law.specs.LeftAlong.{LeftAlong};
ghost use Rattle.hop_law.specs.TakenAlong.{TakenAlong};
ghost use Rattle.hop_law.specs.Waiting.{UnitsWait};

/// The units that left on a section are the first of those that came in at the other end of its connection, as long as no reset was sent.
pub fn left_along()
    ensures { LeftAlong }
{}

/// The units that came in at a section are those that messages brought for it while it was up, as long as no reset was sent.
pub fn taken_along()
    ensures { TakenAlong }
{}

/// The units for a reference among the messages of a step to a point are those that the section to that point sends.
pub fn units_wait()
    ensures { UnitsWait }
{}

/// A section whose other end isn't known comes to know it by CC for its reference alone: the point, the reference and the class are those of CC.
pub fn becomes_known()
    ensures { BecomesKnown }
{}

/// A section that was asked for a connection sends CC as it comes up, or CREF as it is over, and nothing before.
pub fn is_answered()
    ensures { IsAnswered }
{}
