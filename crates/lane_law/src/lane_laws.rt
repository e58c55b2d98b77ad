//! Laws of the definitions, each as the contract of a function.
ghost use Rattle.lane_law.specs.SideBySide.{PartsStand, TwoWorlds};

/// What a connection hears has its part alone as outputs, and a tick has the parts of all connections, by their openings.
pub fn parts_stand()
    ensures { PartsStand }
{}

/// Connections of one origin that hear the same begin alike and act alike, whatever else runs in their lanes.
pub fn two_worlds()
    ensures { TwoWorlds }
{}
