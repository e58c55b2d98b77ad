//! Laws of the definitions, each as the contract of a function.
ghost use Rattle.hop_law.specs.Apart.{KeepsApart};
ghost use Rattle.hop_law.specs.ComingIn.{SectionsStayShut, UnitsComeIn};
ghost use Rattle.hop_law.specs.Going.{SendsOfClass, UnitsGo};
ghost use Rattle.hop_law.specs.SectionLaw.{SectionsStay};
ghost use Rattle.hop_law.specs.Setup.{AskedAnswers, AskingIsAnswered, AskingStays, SendsNoConfirm};
ghost use Rattle.hop_law.specs.Soundness.{StaysSound, UnheardIsIdle};
ghost use Rattle.hop_law.specs.Unset.{NothingPasses};

/// By an event that it doesn't hear a connection stays as it is, and sends nothing.
pub fn unheard_is_idle()
    ensures { UnheardIsIdle }
{}

/// The ends of a connection stay in step, its class 2 or 3, and its references apart, whatever happens.
pub fn stays_sound()
    ensures { StaysSound }
{}

/// A section keeps its local reference and its link selection; its point and the other reference, once they are known; and its class, once it is agreed on.
pub fn sections_stay()
    ensures { SectionsStay }
{}

/// The units that come in at a section are those that a message brings while it is up, as long as no reset is sent.
pub fn units_come_in()
    ensures { UnitsComeIn }
{}

/// No section is reset, or takes units again once it takes none, as long as no reset is sent.
pub fn sections_stay_shut()
    ensures { SectionsStayShut }
{}

/// The units for a reference among the messages to a point are those that the section to that point sends.
pub fn units_go()
    ensures { UnitsGo }
{}

/// Each unit that a section sends is in a message of its class.
pub fn sends_of_class()
    ensures { SendsOfClass }
{}

/// The other end of a connection becomes a section to a point by CC for it from that point alone.
pub fn keeps_apart()
    ensures { KeepsApart }
{}

/// Where a section isn't connected, nothing passes through its connection.
pub fn nothing_passes()
    ensures { NothingPasses }
{}

/// A section that was asked for a connection sends CC, which is read as it was meant, as it comes up; or CREF as it is over; and nothing before.
pub fn asked_answers()
    ensures { AskedAnswers }
{}

/// A section that wasn't asked for its connection, or has answered, sends no CC.
pub fn sends_no_confirm()
    ensures { SendsNoConfirm }
{}

/// A section whose other end isn't known comes to know it by CC for it alone.
pub fn asking_stays()
    ensures { AskingStays }
{}

/// A section whose other end isn't known is over, or knows it, by CC or CREF for it.
pub fn asking_is_answered()
    ensures { AskingIsAnswered }
{}
