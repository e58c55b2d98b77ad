//! How connections with a user end.
ghost use Rattle.std.specs.Prelude.{◌≡◌, [], ◌∷◌, ◌++◌, replicate, Some, None};
ghost use Rattle.relay_base.specs.declared.words.Event.TheVariants.{Tick as tick};
ghost use Rattle.relay_base.specs.declared.words.Request.TheVariants as request;
ghost use Rattle.relay_base.specs.declared.words.Tell.TheVariants as tell;
ghost use Rattle.relay_base.specs.declared.words.Output.TheVariants.{Told as told, Lost as dropped};
ghost use Rattle.relay_base.specs.declared.words.Lost.TheVariants as lost;
ghost use Rattle.relay_base.specs.declared.words.Reason.TheVariants as reason;
ghost use Rattle.section_rows.specs.Text.{hex};
ghost use Rattle.section_rows.specs.Played.{Shows};
ghost use Rattle.section_rows.specs.Examples.{first_lane, quick_lane, arrives, asks, sent, cr, local, local_outs, refused_at, refused_outs, references_after, offers};

/// Data, and a release by the user, whose RLC comes twice.
pub fn user_disconnects()
    ensures { Shows first_lane (local
        ++ arrives 200 3 "0610000000010161"
        ∷ asks (request.Disc 16 3 [])
        ∷ arrives 200 3 "05100000010000"
        ∷ arrives 200 3 "05100000010000" ∷ [])
        (local_outs ++ (told 8 (tell.Text 16 (hex "61")) ∷ [])
        ∷ (sent 200 3 "040100001000000300" ∷ [])
        ∷ []
        ∷ (dropped lost.Stray ∷ []) ∷ []) }
{}

/// RLSD with another source reference than the section's is an error.
#[tactic(auto, using(crate::proofs::Showing::shows), unfolding(crate::specs::Played::played))]
pub fn wrong_reference()
    ensures { Shows first_lane (local ++ arrives 200 3 "041000000200000000" ∷ [])
        (local_outs ++ (sent 200 3 "0f02000001" ∷ []) ∷ []) }
{}

/// Nobody hears a CC for a free reference, and no request on one.
#[tactic(auto, using(crate::proofs::Showing::shows), unfolding(crate::specs::Played::played))]
pub fn unknown_reference()
    ensures { Shows first_lane
        (arrives 200 3 "023000000900000200" ∷ asks (request.Disc 48 0 []) ∷ [])
        ((sent 200 3 "0f09000000" ∷ []) ∷ (told 8 (tell.No reason.Unknown) ∷ []) ∷ []) }
{}

/// A silent section is tested, and ends.
pub fn silence()
    ensures { Shows first_lane (cr ∷ asks (request.Accept 16 2 0 []) ∷ replicate 900 tick)
        (offers 16
        ∷ (sent 200 3 "020100001000000200" ∷ [])
        ∷ replicate 419 [] ++ (sent 200 3 "1001000010000002000000" ∷ [])
        ∷ replicate 419 [] ++ (sent 200 3 "1001000010000002000000" ∷ [])
        ∷ replicate 59 []
        ++ (sent 200 3 "040100001000000d00" ∷ told 8 (tell.Disc 16 13 None) ∷ []) ∷ []) }
{}

/// A slot is free again as soon as its reference was frozen for its ticks, and then has the reference of the next generation.
#[tactic(auto, using(crate::proofs::Showing::shows), unfolding(crate::specs::Played::played))]
pub fn frozen_references()
    ensures { Shows quick_lane (refused_at 16 ++ refused_at 65552)
        (refused_outs 16 ++ refused_outs 65552) }
{}

/// A late message for the former owner of a slot isn't heard by the next one.
#[tactic(auto, using(crate::proofs::Showing::shows), unfolding(crate::specs::Played::played))]
pub fn late_message()
    ensures { Shows quick_lane
        (refused_at 16 ++ cr ∷ arrives 200 3 "0610000000010161" ∷ [])
        (refused_outs 16 ++ offers 65552 ∷ (dropped lost.Stray ∷ []) ∷ []) }
{}

/// The references of a slot, one after another: the 256th is the first again.
pub fn generations()
    ensures first { references_after 0 ≡ 16 ∷ [] }
    ensures second { references_after 1 ≡ 65552 ∷ [] }
    ensures last { references_after 254 ≡ 16646160 ∷ [] }
    ensures again { references_after 255 ≡ 16 ∷ [] }
{}
