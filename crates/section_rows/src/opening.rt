//! How connections are opened.
ghost use Rattle.std.specs.Prelude.{◌≡◌, [], ◌∷◌, None};
ghost use Rattle.relay_base.specs.declared.words.Request.TheVariants as request;
ghost use Rattle.relay_base.specs.declared.words.Tell.TheVariants as tell;
ghost use Rattle.relay_base.specs.declared.words.Output.TheVariants.{Told as told};
ghost use Rattle.section_model.specs.Opening.{not_opened};
ghost use Rattle.section_rows.specs.Text.{hex};
ghost use Rattle.section_rows.specs.Played.{Shows};
ghost use Rattle.section_rows.specs.Examples.{first_lane, arrives, asks, sent, cr, local, local_outs, offers, opening_in};

/// A CR to a local user, which accepts.
#[tactic(auto, using(crate::proofs::Showing::shows), unfolding(crate::specs::Played::played))]
pub fn user_accepts()
    ensures { Shows first_lane local local_outs }
{}

/// A CR to a local user, which refuses.
#[tactic(auto, using(crate::proofs::Showing::shows), unfolding(crate::specs::Played::played))]
pub fn user_refuses()
    ensures { Shows first_lane (cr ∷ asks (request.Refuse 16 3 []) ∷ [])
        (offers 16 ∷ (sent 200 3 "030100000300" ∷ []) ∷ []) }
{}

/// A user's connection, which is confirmed by a CC whose optional part is a lone end octet.
#[tactic(auto, using(crate::proofs::Showing::shows), unfolding(crate::specs::Played::played))]
pub fn user_calls()
    ensures { Shows first_lane
        (asks (request.Conn 7 2 0 (hex "43c8000a") []) ∷ arrives 200 7 "02100000550000020100" ∷ [])
        ((told 8 (tell.Named 7 16) ∷ sent 200 7 "011000000202060443c8000a0402420811010f00" ∷ [])
        ∷ (told 8 (tell.Confirm 16 2 0 None None) ∷ []) ∷ []) }
{}

/// A CC with no optional part confirms as well.
#[tactic(auto, using(crate::proofs::Showing::shows), unfolding(crate::specs::Played::played))]
pub fn confirmed_without_options()
    ensures { Shows first_lane
        (asks (request.Conn 7 2 0 (hex "43c8000a") []) ∷ arrives 200 7 "021000005500000200" ∷ [])
        ((told 8 (tell.Named 7 16) ∷ sent 200 7 "011000000202060443c8000a0402420811010f00" ∷ [])
        ∷ (told 8 (tell.Confirm 16 2 0 None None) ∷ []) ∷ []) }
{}

/// A CR that is translated with a hop counter of 1 is refused.
#[tactic(auto, using(crate::proofs::Showing::shows), unfolding(crate::specs::Played::played))]
pub fn hop_counter_runs_out()
    ensures { Shows first_lane (arrives 200 5 "0107000002020a08120800120494712111010100" ∷ [])
        ((sent 200 5 "030700001000" ∷ []) ∷ []) }
{}

/// Openings take the lowest free references, and a relayed one takes two.
#[tactic(auto, using(crate::proofs::Showing::shows), unfolding(crate::specs::Played::played))]
pub fn lowest_references()
    ensures { Shows first_lane
        (cr ∷ arrives 200 4 "01070000020200081208001204947121"
        ∷ arrives 200 3 "01020000020200024208" ∷ [])
        (offers 16 ∷ (sent 300 4 "01300000020200085208001204947121" ∷ []) ∷ offers 64 ∷ []) }
{}

/// With one reference left a relayed connection is refused, a local one takes it, and the next one is refused.
#[tactic(auto, unfolding(crate::specs::Played::played))]
pub fn too_few_references()
    ensures relayed { opening_in (4095 ∷ []) (arrives 200 4 "01070000020200081208001204947121")
        ≡ not_opened (sent 200 4 "030700000700" ∷ []) }
    ensures local { (opening_in (4095 ∷ []) cr).outs ≡ offers 65520 }
    ensures none { opening_in [] (arrives 200 4 "01070000020200024208")
        ≡ not_opened (sent 200 4 "030700000700" ∷ []) }
{}
