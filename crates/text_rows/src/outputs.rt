//! The text of each output. A list that is empty or absent is a dash.
ghost use Rattle.std.specs.Prelude.{◌≡◌, [], ◌∷◌, map, codes, Some, None, true, false};
ghost use Rattle.relay_base.specs.declared.words.Reason.TheVariants as reason;
ghost use Rattle.relay_base.specs.declared.words.ReadFault.TheVariants as fault;
ghost use Rattle.relay_base.specs.declared.words.Tell.TheVariants as tell;
ghost use Rattle.relay_base.specs.declared.words.Lost.TheVariants as lost;
ghost use Rattle.relay_base.specs.declared.words.Output.TheVariants as output;
ghost use Rattle.journal_text.specs.Print.{reason_text};
ghost use Rattle.text_rows.specs.Printed.{told, lost as lost_words, lines};

/// A message that is lost, and a change without an effect.
#[tactic(auto, unfolding(crate::specs::Printed::lost))]
pub fn losses()
    ensures read { map lost_words (lost.Read fault.Empty ∷ lost.Read (fault.UnknownType 200)
        ∷ lost.Read fault.Short ∷ lost.Read (fault.PointerOut 260)
        ∷ lost.Read (fault.ValueLength 15) ∷ [])
        ≡ codes "read 1" ∷ codes "read 2 200" ∷ codes "read 3" ∷ codes "read 4 260"
        ∷ codes "read 5 15" ∷ [] }
    ensures taken { map lost_words (lost.Long ∷ lost.Address ∷ lost.Class ∷ lost.Point ∷ lost.State
        ∷ lost.Stray ∷ lost.Segment ∷ lost.Manage ∷ lost.Cause 255 ∷ [])
        ≡ codes "long" ∷ codes "address" ∷ codes "class" ∷ codes "point" ∷ codes "state"
        ∷ codes "stray" ∷ codes "segment" ∷ codes "manage" ∷ codes "cause 255" ∷ [] }
    ensures edits { map lost_words (lost.Same ∷ lost.Duplicate ∷ lost.RowsFull ∷ lost.NoRow ∷ [])
        ≡ codes "same" ∷ codes "duplicate" ∷ codes "rows-full" ∷ codes "no-row" ∷ [] }
{}

/// Why a user's request is refused.
#[tactic(auto, unfolding(crate::specs::Printed::told))]
pub fn refusals()
    ensures reasons { map reason_text (reason.Owner ∷ reason.State ∷ reason.Class ∷ reason.Full
        ∷ reason.Expedited ∷ reason.Unknown ∷ reason.Replicate ∷ [])
        ≡ codes "owner" ∷ codes "state" ∷ codes "class" ∷ codes "full"
        ∷ codes "expedited" ∷ codes "unknown" ∷ codes "replicate" ∷ [] }
    ensures told { told (tell.No reason.Owner) ≡ codes "no owner" }
{}

/// A unit, and a notice.
#[tactic(auto, unfolding(crate::specs::Printed::told))]
pub fn units()
    ensures unit { told (tell.Unit 1 (0x42 ∷ 0x08 ∷ []) (0x42 ∷ 0x06 ∷ []) (0xAA ∷ []))
        ≡ codes "unit 1 4208 4206 aa" }
    ensures notice { told (tell.Notice 12 (0x42 ∷ 0x06 ∷ []) [] [])
        ≡ codes "notice 12 4206 - -" }
{}

/// A connection that is offered.
#[tactic(auto, unfolding(crate::specs::Printed::told))]
pub fn connections()
    ensures whole { told (tell.Conn 16_777_215 3 127 (0x42 ∷ 0x08 ∷ [])
        (Some (0x42 ∷ 0x06 ∷ [])) (Some (0x0B ∷ [])))
        ≡ codes "conn 16777215 3 127 4208 4206 0b" }
    ensures bare { told (tell.Conn 16 2 0 (0x42 ∷ 0x08 ∷ []) None (Some []))
        ≡ codes "conn 16 2 0 4208 - -" }
{}

/// What comes of a connection that a user asked for.
#[tactic(auto, unfolding(crate::specs::Printed::told))]
pub fn answers()
    ensures made { told (tell.Named 65_535 16) ≡ codes "ref 65535 16" }
    ensures not_made { told (tell.NotMade 0 255) ≡ codes "not-made 0 255" }
    ensures addressed { told (tell.Confirm 16 3 7 (Some (0x42 ∷ 0x08 ∷ [])) None)
        ≡ codes "confirm 16 3 7 4208 -" }
    ensures filled { told (tell.Confirm 17 2 0 None (Some (0x0C ∷ [])))
        ≡ codes "confirm 17 2 0 - 0c" }
{}

/// Data of a connection, and its resets.
#[tactic(auto, unfolding(crate::specs::Printed::told))]
pub fn transfers()
    ensures { map told (tell.Text 16 (0x0D ∷ 0x0E ∷ []) ∷ tell.Expedited 16 (0x0F ∷ [])
        ∷ tell.Renewed 16 2 ∷ tell.ResetDone 16 ∷ [])
        ≡ codes "text 16 0d0e" ∷ codes "ed 16 0f" ∷ codes "reset 16 2"
        ∷ codes "reset-done 16" ∷ [] }
{}

/// The end of a connection.
#[tactic(auto, unfolding(crate::specs::Printed::told))]
pub fn endings()
    ensures { map told (tell.Disc 16 13 None ∷ tell.Disc 0 3 (Some (0xA0 ∷ [])) ∷ [])
        ≡ codes "disc 16 13 -" ∷ codes "disc 0 3 a0" ∷ [] }
{}

/// Subsystems, points and coordinated changes.
#[tactic(auto, unfolding(crate::specs::Printed::told))]
pub fn management()
    ensures states { map told (tell.State 6 200 true ∷ tell.State 254 16_383 false
        ∷ tell.Point 200 true ∷ tell.Point 200 false ∷ [])
        ≡ codes "state 6 200 in" ∷ codes "state 254 16383 out"
        ∷ codes "point 200 in" ∷ codes "point 200 out" ∷ [] }
    ensures changes { map told (tell.Coord 200 ∷ tell.Granted 200 ∷ tell.Denied 200 ∷ [])
        ≡ codes "coord 200" ∷ codes "granted 200" ∷ codes "denied 200" ∷ [] }
{}

/// A line for each output: what is sent, what a user is told, and what is lost.
#[tactic(auto, unfolding(crate::specs::Printed::lines))]
pub fn messages()
    ensures { lines (output.Sent 16_383 15 (0x00 ∷ 0xFF ∷ []) ∷ output.Sent 0 0 []
        ∷ output.Told 8 (tell.ResetDone 16) ∷ output.Lost lost.Stray ∷ [])
        ≡ codes " > 16383 15 00ff\n > 0 0 -\n < 8 reset-done 16\n . stray\n" }
{}
