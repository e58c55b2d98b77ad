//! Laws of a connection in a run of nodes in a row, each as the contract of a function.
ghost use Rattle.passage_law.specs.Hops.{RunHop};
ghost use Rattle.passage_law.specs.Resets.{RunRsr, RunEnds};
ghost use Rattle.passage_law.specs.TrailLaw.{TextsKeepOrder, HopsKeepOrder, UsersEndTrails};

/// What came in at one section between neighbours on a trail begins the units that left on the other one, and while it may take them the rest waits, as long
/// as no reset is sent and no node gave one reference twice.
pub fn run_hop()
    ensures { RunHop }
{}

/// Each RSR that comes for a section between neighbours on a trail was sent by the neighbour's connection, where no node gave one reference twice.
pub fn run_rsr()
    ensures { RunRsr }
{}

/// Where no leg follows one of a trail, no RSR comes for the other section of that one, where no node gave one reference twice.
pub fn run_ends()
    ensures { RunEnds }
{}

/// What a user is told along a trail are the first of the texts that the other user gave, as long as no RSR is sent and no node gave one reference twice.
pub fn texts_keep_order()
    ensures { TextsKeepOrder }
{}

/// Between every two neighbours of a whole trail, as far as it goes, what came in at the one section begins the units that left on the other one, and while it
/// may take them the rest waits, as long as no RSR is sent and no node gave one reference twice.
pub fn hops_keep_order()
    ensures { HopsKeepOrder }
{}

/// A trail that reaches the other user is whole.
pub fn users_end_trails()
    ensures { UsersEndTrails }
{}
