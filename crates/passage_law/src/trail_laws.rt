//! Laws of a connection along nodes in a row, each as the contract of a function.
ghost use Rattle.passage_law.specs.Hops.{RunPlaces};
ghost use Rattle.passage_law.specs.TrailLaw.{OrderOfHops};
ghost use Rattle.passage_law.specs.Users.{TextsCome, UnitsAreTold};

/// What came in at a user's end are the units of the texts that its user gave, as long as no reset was sent.
pub fn texts_come()
    ensures { TextsCome }
{}

/// The texts that a user was told are those of the first units that came in at the other end, as long as no reset was sent.
pub fn units_are_told()
    ensures { UnitsAreTold }
{}

/// The two sections between neighbours on a trail stand to each other's points, where no node gave one reference twice.
pub fn run_places()
    ensures { RunPlaces }
{}

/// Of the law of one hop, and of where RSR comes from, it follows that what a user is told along a trail are the first of the texts that the other user gave,
/// and that what comes in at one node of a whole trail is what left at its neighbour.
pub fn order_of_hops()
    ensures { OrderOfHops }
{}
