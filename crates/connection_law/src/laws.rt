//! Laws of the definitions, each as the contract of a function.
ghost use Rattle.connection_law.specs.ReferenceLaw.{FollowingStays, StepStays};
ghost use Rattle.connection_law.specs.FlowLaw.{ActsKeep, FlowLaw, OpeningKeeps, SendingLaw, StepKeeps};
ghost use Rattle.connection_law.specs.SentUnits.{OrderLaw};
ghost use Rattle.connection_law.specs.DataSent.{DataSentLaw};
ghost use Rattle.connection_law.specs.DataAlong.{DataAlongLaw};
ghost use Rattle.connection_law.specs.ExpeditedSent.{ExpeditedSentLaw};
ghost use Rattle.connection_law.specs.TimerLaw.{QuietTick, TimersRun};

/// Each end of a connection keeps its local reference over a step, and an end that is gone stays gone, whatever the event is.
pub fn step_stays()
    ensures { StepStays }
{}

/// So it is over any events, one after another.
pub fn following_stays()
    ensures { FollowingStays }
{}

/// The windows of both ends agree at each moment of a connection, whatever it hears from its opening on.
pub fn window_law()
    ensures { FlowLaw }
{}

/// What a section of class 3 sent as DT2 since its counts were last cleared is what left of the other end, in order.
pub fn order_law()
    ensures { OrderLaw }
{}

/// What is opened keeps what flows, and more.
pub fn opening_keeps()
    ensures { OpeningKeeps }
{}

/// What is kept before an event is kept after it.
pub fn step_keeps()
    ensures { StepKeeps }
{}

/// A section keeps its own counts in order at each act, whatever the other end does.
pub fn acts_keep()
    ensures { ActsKeep }
{}

/// Units leave in order and numbered while the window allows, and no expedited data while others are unanswered.
pub fn sending_law()
    ensures { SendingLaw }
{}

/// The DT2 among the outputs of a step are the next units of either end, numbered on, and no others.
pub fn data_sent()
    ensures { DataSentLaw }
{}

/// The DT2 sent on a section since its counts were last cleared carry the units that left of the other end, numbered from 0.
pub fn data_along()
    ensures { DataAlongLaw }
{}

/// The ED among the outputs of a step: at most one on a section, none while one is unanswered, and no others.
pub fn expedited_sent()
    ensures { ExpeditedSentLaw }
{}

/// Between events a timer that runs has a tick left at least, and its section is in a state that has it.
pub fn timers_run()
    ensures { TimersRun }
{}

/// A tick at which no timer of a connection fires takes a tick from each that runs, and does nothing else.
pub fn quiet_tick()
    ensures { QuietTick }
{}
