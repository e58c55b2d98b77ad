//! Connections from one point to another.
ghost use Rattle.std.specs.Prelude.{[], ◌∷◌, ◌++◌, replicate};
ghost use Rattle.relay_base.specs.declared.words.Event.TheVariants.{Tick as tick};
ghost use Rattle.relay_base.specs.declared.words.Output.TheVariants.{Lost as dropped};
ghost use Rattle.relay_base.specs.declared.words.Lost.TheVariants as lost;
ghost use Rattle.section_rows.specs.Played.{Shows};
ghost use Rattle.section_rows.specs.Examples.{first_lane, arrives, sent, cr, relayed, relayed_outs, offers};

/// A connection is relayed, with data both ways, and released.
pub fn relays()
    ensures { Shows first_lane relayed relayed_outs }
{}

/// What comes for a section that is gone is answered or lost as a stray. Its RLC releases the other section, and then no half is left: a second
/// RLC is a stray, and a tick has no output.
pub fn strays()
    ensures { Shows first_lane (relayed
        ++ arrives 301 4 "042000000900000000"
        ∷ arrives 301 4 "0620000000010144"
        ∷ arrives 200 4 "05100000070000"
        ∷ arrives 200 4 "05100000070000"
        ∷ arrives 301 4 "042000000900000000"
        ∷ tick ∷ [])
        (relayed_outs ++ (sent 301 4 "05090000200000" ∷ []) ∷ (dropped lost.Stray ∷ []) ∷ []
        ∷ (dropped lost.Stray ∷ []) ∷ (sent 301 4 "05090000200000" ∷ []) ∷ [] ∷ []) }
{}

/// A reference is frozen for 60 ticks from when its half is gone: at tick 59 a new connection gets another slot, and at tick 60 that one, with the
/// next generation.
pub fn frozen_half()
    ensures { Shows first_lane (relayed ++ replicate 59 tick ++ cr ∷ tick ∷ cr ∷ [])
        (relayed_outs ++ replicate 14 [] ++ (sent 200 4 "040700001000000000" ∷ [])
        ∷ replicate 14 [] ++ (sent 200 4 "040700001000000000" ∷ [])
        ∷ replicate 14 [] ++ (sent 200 4 "040700001000000000" ∷ [])
        ∷ replicate 14 [] ++ offers 48
        ∷ (sent 200 4 "040700001000000000" ∷ []) ∷ offers 65568 ∷ []) }
{}

/// RLSD is repeated until the section is given up, and slots come back once their references were frozen.
pub fn repeats()
    ensures { Shows first_lane (relayed ++ replicate 134 tick ++ cr ∷ tick ∷ cr ∷ [])
        (relayed_outs ++ replicate 14 [] ++ (sent 200 4 "040700001000000000" ∷ [])
        ∷ replicate 14 [] ++ (sent 200 4 "040700001000000000" ∷ [])
        ∷ replicate 14 [] ++ (sent 200 4 "040700001000000000" ∷ [])
        ∷ replicate 14 [] ++ (sent 200 4 "040700001000000000" ∷ [])
        ∷ replicate 74 [] ++ offers 65568
        ∷ [] ∷ offers 65552 ∷ []) }
{}
