//! The table of a connection section.
ghost use Rattle.std.specs.Prelude.{◌≡◌, IsTrue};
ghost use Rattle.section_model.specs.Table.{section_row, section_cell};
ghost use Rattle.section_grid.specs.Inner.Rows.{section_cells, is_message, is_timer, is_effect};
ghost use Rattle.section_grid.specs.Grids.{IsSectionGrid};

use crate::grid::Grid;
use section_model::{Cell, Occasion, SectionState};

/// The events, in the order of their numbers.
const OCCASIONS: [Occasion; 27] = [
    Occasion::Cc,
    Occasion::Cref,
    Occasion::Rlsd,
    Occasion::Rlc,
    Occasion::Dt1,
    Occasion::Dt2,
    Occasion::Ak,
    Occasion::Ed,
    Occasion::Ea,
    Occasion::Rsr,
    Occasion::Rsc,
    Occasion::Err,
    Occasion::It,
    Occasion::ConnectFires,
    Occasion::ResetFires,
    Occasion::IarFires,
    Occasion::IasFires,
    Occasion::RelFires,
    Occasion::IntFires,
    Occasion::RepeatFires,
    Occasion::AcceptComes,
    Occasion::RefuseComes,
    Occasion::EndComes,
    Occasion::UnitComes,
    Occasion::ExpeditedComes,
    Occasion::ResetComes,
    Occasion::DoneComes,
];

/// The row of an event, by the number of the state; in state Gone nothing is done.
macro_rules! row {
    ($occasion:ident; $($event:ident => $($cell:ident)*;)*) => {
        match $occasion {
            $(Occasion::$event => [$(Cell::$cell,)* Cell::Nothing],)*
            _ => unreachable!(),
        }
    };
}

/// What a section does with a message.
#[tactic(auto, unfolding(section_model::specs::Table::section_row))]
fn message_row(occasion: Occasion) -> [Cell; 7]
    requires { IsTrue (is_message occasion) }
    ensures { result ≡ section_cells (section_row occasion) }
{
    row! {
        occasion;
        // message        Asked      Asking      Waning      Up                           Resetting     Ending
        Cc             => Discard    Confirm     ConfirmLate Discard                      Discard       Discard;
        Cref           => Discard    Refused     Free        Discard                      Discard       Discard;
        Rlsd           => Discard    Discard     Discard     Released                     Released      ReleaseCollision;
        Rlc            => Discard    Discard     Discard     Discard                      Discard       Free;
        Dt1            => Discard    Discard     Discard     TakeData                     Nothing       Discard;
        Dt2            => Discard    Discard     Discard     TakeNumberedData             Discard       Discard;
        Ak             => Discard    Discard     Discard     TakeAcknowledgement          Discard       Discard;
        Ed             => Discard    Discard     Discard     TakeExpedited                Discard       Discard;
        Ea             => Discard    Discard     Discard     TakeExpeditedAcknowledgement Discard       Discard;
        Rsr            => Discard    Discard     Discard     ResetByPeer                  ResetComplete Discard;
        Rsc            => Discard    Discard     Discard     Discard                      ResetComplete Discard;
        Err            => Discard    Discard     Discard     ErrorReceived                ErrorReceived Free;
        It             => Discard    Discard     Discard     TestReceived                 TestReceived  Discard;
    }
}

/// What a section does when a timer fires.
#[tactic(auto, unfolding(section_model::specs::Table::section_row))]
fn timer_row(occasion: Occasion) -> [Cell; 7]
    requires { IsTrue (is_timer occasion) }
    ensures { result ≡ section_cells (section_row occasion) }
{
    row! {
        occasion;
        // timer          Asked      Asking      Waning      Up                           Resetting     Ending
        ConnectFires   => Nothing    NotAnswered Free        Nothing                      Nothing       Nothing;
        ResetFires     => Nothing    Nothing     Nothing     Nothing                      ResetExpired  Nothing;
        IarFires       => Nothing    Nothing     Nothing     PeerSilent                   PeerSilent    Nothing;
        IasFires       => Nothing    Nothing     Nothing     SendTest                     SendTest      Nothing;
        RelFires       => Nothing    Nothing     Nothing     Nothing                      Nothing       ReleaseUnanswered;
        IntFires       => Nothing    Nothing     Nothing     Nothing                      Nothing       Free;
        RepeatFires    => Nothing    Nothing     Nothing     Nothing                      Nothing       RepeatRelease;
    }
}

/// What a section does with what the other end hands over.
#[tactic(auto, unfolding(section_model::specs::Table::section_row))]
fn effect_row(occasion: Occasion) -> [Cell; 7]
    requires { IsTrue (is_effect occasion) }
    ensures { result ≡ section_cells (section_row occasion) }
{
    row! {
        occasion;
        // effect         Asked      Asking      Waning      Up                           Resetting     Ending
        AcceptComes    => PassAccept Nothing     Nothing     Nothing                      Nothing       Nothing;
        RefuseComes    => PassRefuse Nothing     Nothing     Nothing                      Nothing       Nothing;
        EndComes       => Nothing    KeepEnd     Nothing     PassEnd                      PassEnd       Nothing;
        UnitComes      => Nothing    Nothing     Nothing     PassUnit                     PassUnit      Nothing;
        ExpeditedComes => Nothing    Nothing     Nothing     PassExpedited                PassExpedited Nothing;
        ResetComes     => Nothing    Nothing     Nothing     PassReset                    ClearCounts   Nothing;
        DoneComes      => Nothing    Nothing     Nothing     Nothing                      Nothing       Nothing;
    }
}

/// What a section does with an event.
fn section_row(occasion: Occasion) -> [Cell; 7]
    ensures { result ≡ section_cells (section_row occasion) }
{
    match occasion {
        Occasion::ConnectFires | Occasion::ResetFires => timer_row(occasion),
        Occasion::IarFires | Occasion::IasFires => timer_row(occasion),
        Occasion::RelFires | Occasion::IntFires | Occasion::RepeatFires => timer_row(occasion),
        Occasion::AcceptComes | Occasion::RefuseComes | Occasion::EndComes => effect_row(occasion),
        Occasion::UnitComes | Occasion::ExpeditedComes => effect_row(occasion),
        Occasion::ResetComes | Occasion::DoneComes => effect_row(occasion),
        _ => message_row(occasion),
    }
}

/// What a section does with an event in a state (Q.714).
pub fn section_cell(state: SectionState, occasion: Occasion) -> Cell
    ensures { result ≡ section_cell state occasion }
{
    section_row(occasion)[state as usize]
}

/// What a connection section does (Q.714), by the numbers of its states and events: its 7 states in the order of `SectionState`, and
/// its 27 events in the order of `Occasion`, which are 13 messages, 7 timers, and 7 effects of the other end.
pub fn wire_grid() -> Grid<7, 27>
    ensures { IsSectionGrid result }
{
    Grid {
        rows: OCCASIONS.map(section_row),
    }
}
