//! The states of the two kinds of end, what they meet, and what they do, with the names of Q.714 beside them.
ghost use Rattle.std.specs.Prelude.{◌≡◌, ◌<◌};
ghost use Rattle.section_model.specs.Views.{state_numbered};

/// The states of a connection section (Q.714, Annex B).
#[derive(Clone, Copy, PartialEq, Eq)]
pub enum SectionState {
    /// Connection pending, incoming section: CR came, and CC has not left.
    Asked,
    /// Connection pending, outgoing section: CR left, and CC has not come.
    Asking,
    /// Wait for the connection confirm to release: CR left, and RLSD follows once CC comes.
    Waning,
    /// Active (data transfer).
    Up,
    /// Reset outgoing: RSR left, and RSC has not come.
    Resetting,
    /// Disconnect pending: RLSD left, and RLC has not come.
    Ending,
    /// Idle: the local reference is frozen.
    Gone,
}

impl SectionState {
    /// The number of the state, from 0 in the order of the variants.
    pub fn number(self) -> u8
        ensures state { state_numbered result ≡ self }
        ensures range { result < 7 }
    {
        match self {
            SectionState::Asked => 0,
            SectionState::Asking => 1,
            SectionState::Waning => 2,
            SectionState::Up => 3,
            SectionState::Resetting => 4,
            SectionState::Ending => 5,
            SectionState::Gone => 6,
        }
    }

    /// The state of this number; `Gone` has every number from 6 on.
    pub fn numbered(number: u8) -> SectionState
        ensures { result ≡ state_numbered number }
    {
        match number {
            0 => SectionState::Asked,
            1 => SectionState::Asking,
            2 => SectionState::Waning,
            3 => SectionState::Up,
            4 => SectionState::Resetting,
            5 => SectionState::Ending,
            _ => SectionState::Gone,
        }
    }
}

/// The states of a user's end of a connection (Q.711).
#[derive(Clone, Copy, PartialEq, Eq)]
pub enum UserState {
    /// Connection pending, incoming: the user was given an N-CONNECT indication, and has not responded.
    Offered,
    /// Connection pending, outgoing: the user made an N-CONNECT request, and awaits the confirm.
    Calling,
    /// Active (data transfer).
    Ready,
    /// Reset outgoing: the user made an N-RESET request, and awaits the confirm.
    Renewing,
    /// Idle.
    Gone,
}

/// The timers of a connection section (Q.714, 3.1, 3.3, 3.4 and 3.7), in the order in which they fire.
#[derive(Clone, Copy)]
pub enum Timer {
    /// T(conn est): CC or CREF is awaited.
    Connect,
    /// T(reset): RSC is awaited.
    Reset,
    /// T(iar), receive inactivity: no message came.
    Iar,
    /// T(ias), send inactivity: no message left.
    Ias,
    /// T(rel): RLC is awaited for the first time.
    Rel,
    /// T(int): RLC is awaited no longer after this.
    Int,
    /// T(repeat rel): RLSD is sent again meanwhile.
    Repeat,
}

/// What a section meets: the messages, the timers that fire, and the effects of the other end, in the order of the table.
#[derive(Clone, Copy)]
pub enum Occasion {
    /// Connection confirm.
    Cc,
    /// Connection refused.
    Cref,
    /// Released.
    Rlsd,
    /// Release complete.
    Rlc,
    /// Data form 1.
    Dt1,
    /// Data form 2.
    Dt2,
    /// Data acknowledgement.
    Ak,
    /// Expedited data.
    Ed,
    /// Expedited data acknowledgement.
    Ea,
    /// Reset request.
    Rsr,
    /// Reset confirm.
    Rsc,
    /// Protocol data unit error.
    Err,
    /// Inactivity test.
    It,
    /// T(conn est) expires.
    ConnectFires,
    /// T(reset) expires.
    ResetFires,
    /// T(iar) expires.
    IarFires,
    /// T(ias) expires.
    IasFires,
    /// T(rel) expires.
    RelFires,
    /// T(int) expires.
    IntFires,
    /// T(repeat rel) expires.
    RepeatFires,
    /// The other end accepts: N-CONNECT response, or CC on a coupled section.
    AcceptComes,
    /// The other end refuses: N-DISCONNECT request before the response, or CREF on a coupled section.
    RefuseComes,
    /// The other end is released: N-DISCONNECT request, or RLSD on a coupled section.
    EndComes,
    /// Data of the other end: N-DATA request, or DT1 or DT2 on a coupled section.
    UnitComes,
    /// Expedited data of the other end: N-EXPEDITED DATA request, or ED on a coupled section.
    ExpeditedComes,
    /// The other end is reset: N-RESET request, or RSR on a coupled section.
    ResetComes,
    /// The reset of the other end is complete.
    DoneComes,
}

/// What a user's end meets: the requests, and the effects of the section, in the order of the table.
#[derive(Clone, Copy)]
pub enum UserOccasion {
    /// N-CONNECT response.
    Accepts,
    /// N-DISCONNECT request in place of the response.
    Refuses,
    /// N-DATA request.
    Sends,
    /// N-EXPEDITED DATA request.
    Expedites,
    /// N-RESET request.
    Resets,
    /// N-DISCONNECT request.
    Disconnects,
    /// The section is set up: N-CONNECT confirm.
    AcceptTold,
    /// The section was refused: N-DISCONNECT indication.
    RefuseTold,
    /// The section was released: N-DISCONNECT indication.
    EndTold,
    /// Data came: N-DATA indication, once they are whole.
    UnitTold,
    /// Expedited data came: N-EXPEDITED DATA indication.
    ExpeditedTold,
    /// The section was reset: N-RESET indication.
    ResetTold,
    /// The reset that the user asked for is complete: N-RESET confirm.
    DoneTold,
}

/// What an end does: the entries of the two tables of states and events, and three that stand in neither.
#[derive(Clone, Copy, PartialEq, Eq)]
pub enum Cell {
    /// The event has no effect here.
    Nothing,
    /// The message is discarded.
    Discard,
    /// The section becomes idle.
    Free,
    /// CC sets the section up, or its class releases it.
    Confirm,
    /// CC comes of a section that is to be released: RLSD.
    ConfirmLate,
    /// CREF frees the section, and refuses the other end.
    Refused,
    /// RLSD is answered by RLC, and ends the other end.
    Released,
    /// RLSD meets RLSD: RLC.
    ReleaseCollision,
    /// DT1: its data go to the other end.
    TakeData,
    /// DT2: its numbers are tested, and its data go to the other end.
    TakeNumberedData,
    /// AK: its P(R) and its credit are taken.
    TakeAcknowledgement,
    /// ED: its data go to the other end.
    TakeExpedited,
    /// EA: the next expedited data may leave.
    TakeExpeditedAcknowledgement,
    /// RSR is answered by RSC.
    ResetByPeer,
    /// RSC, or RSR in its place, completes the reset.
    ResetComplete,
    /// ERR releases or frees the section.
    ErrorReceived,
    /// IT is compared with the section, and releases it where they differ.
    TestReceived,
    /// T(conn est): the other end is refused.
    NotAnswered,
    /// T(reset): the section is released.
    ResetExpired,
    /// T(iar): the section is released.
    PeerSilent,
    /// T(ias): IT.
    SendTest,
    /// T(rel): RLSD again, and T(int) and T(repeat rel) start.
    ReleaseUnanswered,
    /// T(repeat rel): RLSD again.
    RepeatRelease,
    /// The other end accepted: CC.
    PassAccept,
    /// The other end refused: CREF.
    PassRefuse,
    /// The other end is released: RLSD.
    PassEnd,
    /// The other end is released before CC: the cause is kept for RLSD.
    KeepEnd,
    /// Data of the other end: DT1 at once, or DT2 when the window allows.
    PassUnit,
    /// Expedited data of the other end: ED, or they wait.
    PassExpedited,
    /// The other end is reset: RSR.
    PassReset,
    /// The other end is reset once more: the counts begin again.
    ClearCounts,
    /// N-CONNECT response.
    UserAccepts,
    /// N-DISCONNECT request in place of the response.
    UserRefuses,
    /// N-DATA request: the text is cut into units.
    UserSends,
    /// N-EXPEDITED DATA request.
    UserExpedites,
    /// N-RESET request.
    UserResets,
    /// N-DISCONNECT request.
    UserDisconnects,
    /// N-CONNECT confirm.
    TellConfirm,
    /// N-DISCONNECT indication.
    TellDisconnect,
    /// A unit joins the text, and a whole one is an N-DATA indication.
    TellUnit,
    /// N-EXPEDITED DATA indication.
    TellExpedited,
    /// N-RESET indication.
    TellReset,
    /// N-RESET confirm.
    TellResetDone,
    /// Waiting units and waiting expedited data leave, as DT2 and ED.
    Leave,
    /// What left on the other end is acknowledged: AK.
    Acknowledge,
    /// Units and expedited data left on the other end.
    Left,
}
