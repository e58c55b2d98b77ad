//! The numbered data of class 3, its windows, expedited data and the reset.
ghost use Rattle.std.specs.Prelude.{[], ◌∷◌, ◌++◌, replicate, flat_map, None};
ghost use Rattle.std.specs.List.{range_with_len};
ghost use Rattle.relay_base.specs.declared.words.Event.TheVariants.{Tick as tick};
ghost use Rattle.relay_base.specs.declared.words.Reason.TheVariants as reason;
ghost use Rattle.relay_base.specs.declared.words.Request.TheVariants as request;
ghost use Rattle.relay_base.specs.declared.words.Tell.TheVariants as tell;
ghost use Rattle.relay_base.specs.declared.words.Output.TheVariants.{Told as told};
ghost use Rattle.section_rows.specs.Text.{hex};
ghost use Rattle.section_rows.specs.Played.{Shows};
ghost use Rattle.section_rows.specs.Examples.{ticks, first_lane, lane_with, arrives, asks, sent, numbered, numbered_outs, sends, relayed_numbered, relayed_numbered_outs, send_and_ack, numbered_unit};

/// Units leave as far as the credit goes.
pub fn windows()
    ensures { Shows first_lane (numbered
        ++ sends "01" ∷ sends "02" ∷ sends "03" ∷ sends "04" ∷ sends "05"
        ∷ arrives 200 7 "081000000400"
        ∷ arrives 200 7 "081000000402"
        ∷ arrives 200 7 "081000000802" ∷ [])
        (numbered_outs
        ++ (sent 200 7 "075500000000010101" ∷ [])
        ∷ (sent 200 7 "075500000200010102" ∷ [])
        ∷ [] ∷ [] ∷ []
        ∷ []
        ∷ (sent 200 7 "075500000400010103" ∷ sent 200 7 "075500000600010104" ∷ [])
        ∷ (sent 200 7 "075500000800010105" ∷ []) ∷ []) }
{}

/// A P(R) that stands for no unit sent resets both sections.
pub fn invalid_receive_number()
    ensures { Shows first_lane relayed_numbered
        relayed_numbered_outs }
{}

/// A reset that is not answered ends both sections.
pub fn unanswered_reset()
    ensures { Shows first_lane
        (relayed_numbered ++ arrives 200 4 "0d10000007000006" ∷ replicate 15 tick)
        (relayed_numbered_outs ++ [] ∷ replicate 14 []
        ++ (sent 300 4 "040900002000000c00" ∷ sent 200 4 "040700001000000c00" ∷ []) ∷ []) }
{}

/// Numbers go on after 127 with 0: the 128th unit has the sequencing octet fe, and the 129th 00.
pub fn numbers_after_127()
    ensures { Shows (lane_with 127 ticks)
        (asks (request.Conn 7 3 127 (hex "43c8000a") [])
        ∷ arrives 200 7 "02100000550000030109017f00"
        ∷ flat_map send_and_ack (range_with_len 0 130))
        ((told 8 (tell.Named 7 16)
        ∷ sent 200 7 "011000000302060443c8000a09017f0402420811010f00" ∷ [])
        ∷ (told 8 (tell.Confirm 16 3 127 None None) ∷ [])
        ∷ flat_map numbered_unit (range_with_len 0 127)
        ++ (sent 200 7 "07550000fe00010107" ∷ []) ∷ []
        ∷ (sent 200 7 "075500000000010107" ∷ []) ∷ []
        ∷ (sent 200 7 "075500000200010107" ∷ []) ∷ [] ∷ []) }
{}

/// Expedited data goes one at a time.
pub fn expedited_data()
    ensures { Shows first_lane (numbered
        ++ asks (request.Expedite 16 (hex "99"))
        ∷ asks (request.Expedite 16 (hex "98"))
        ∷ asks (request.Expedite 16 (hex "97"))
        ∷ arrives 200 7 "0c100000"
        ∷ arrives 200 7 "0b100000010177" ∷ [])
        (numbered_outs ++ (sent 200 7 "0b550000010199" ∷ [])
        ∷ []
        ∷ (told 8 (tell.No reason.Expedited) ∷ [])
        ∷ (sent 200 7 "0b550000010198" ∷ [])
        ∷ (told 8 (tell.Expedited 16 (hex "77")) ∷ sent 200 7 "0c550000" ∷ []) ∷ []) }
{}

/// A reset by the user drops what waits.
pub fn user_resets()
    ensures { Shows first_lane (numbered
        ++ sends "01" ∷ sends "02" ∷ sends "03"
        ∷ asks (request.Reset 16)
        ∷ arrives 200 7 "0e100000550000"
        ∷ sends "06" ∷ [])
        (numbered_outs
        ++ (sent 200 7 "075500000000010101" ∷ [])
        ∷ (sent 200 7 "075500000200010102" ∷ []) ∷ []
        ∷ (sent 200 7 "0d55000010000000" ∷ [])
        ∷ (told 8 (tell.ResetDone 16) ∷ [])
        ∷ (sent 200 7 "075500000000010106" ∷ []) ∷ []) }
{}
