//! The data of class 2.
ghost use Rattle.std.specs.Prelude.{[], ◌∷◌, ◌++◌, replicate, None};
ghost use Rattle.relay_base.specs.declared.words.Request.TheVariants as request;
ghost use Rattle.relay_base.specs.declared.words.Tell.TheVariants as tell;
ghost use Rattle.relay_base.specs.declared.words.Output.TheVariants.{Sent as sent_octets, Told as told};
ghost use Rattle.section_rows.specs.Text.{hex};
ghost use Rattle.section_rows.specs.Played.{Shows};
ghost use Rattle.section_rows.specs.Examples.{first_lane, asks, sent, local, local_outs, data_of};

/// A long text is cut into units.
pub fn long_text()
    ensures { Shows first_lane (local ++ asks (request.Send 16 (replicate 256 0)) ∷ [])
        (local_outs ++ (sent_octets 200 3 (hex "0601000001" ++ 1 ∷ 255 ∷ replicate 255 0)
        ∷ sent_octets 200 3 (hex "0601000000" ++ 1 ∷ 1 ∷ 0 ∷ []) ∷ []) ∷ []) }
{}

/// A text of 8,193 octets ends the connection, though more of it is to come.
pub fn too_long_text()
    ensures { Shows first_lane
        (local ++ replicate 32 (data_of 1 255) ++ data_of 1 33 ∷ [])
        (local_outs ++ replicate 32 []
        ++ (sent 200 3 "040100001000000700" ∷ told 8 (tell.Disc 16 7 None) ∷ []) ∷ []) }
{}
