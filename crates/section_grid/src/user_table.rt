//! The table of a user's end.
ghost use Rattle.std.specs.Prelude.{◌≡◌};
ghost use Rattle.section_model.specs.Table.{user_row, user_cell};
ghost use Rattle.section_grid.specs.Inner.Rows.{user_cells};
ghost use Rattle.section_grid.specs.Grids.{IsUserGrid};

use crate::grid::Grid;
use section_model::{Cell, UserOccasion, UserState};

/// The events, in the order of their numbers.
const OCCASIONS: [UserOccasion; 13] = [
    UserOccasion::Accepts,
    UserOccasion::Refuses,
    UserOccasion::Sends,
    UserOccasion::Expedites,
    UserOccasion::Resets,
    UserOccasion::Disconnects,
    UserOccasion::AcceptTold,
    UserOccasion::RefuseTold,
    UserOccasion::EndTold,
    UserOccasion::UnitTold,
    UserOccasion::ExpeditedTold,
    UserOccasion::ResetTold,
    UserOccasion::DoneTold,
];

/// What a user's end does with an event, by the number of its state; in state Gone it does nothing.
#[tactic(auto, unfolding(section_model::specs::Table::user_row))]
fn user_row(occasion: UserOccasion) -> [Cell; 5]
    ensures { result ≡ user_cells (user_row occasion) }
{
    macro_rules! table {
        ($($event:ident => $($cell:ident)*;)*) => {
            match occasion {
                $(UserOccasion::$event => [$(Cell::$cell,)* Cell::Nothing],)*
            }
        };
    }
    table! {
        // event         Offered        Calling         Ready           Renewing
        Accepts       => UserAccepts    Nothing         Nothing         Nothing;
        Refuses       => UserRefuses    Nothing         Nothing         Nothing;
        Sends         => Nothing        Nothing         UserSends       Nothing;
        Expedites     => Nothing        Nothing         UserExpedites   Nothing;
        Resets        => Nothing        Nothing         UserResets      Nothing;
        Disconnects   => Nothing        UserDisconnects UserDisconnects UserDisconnects;
        AcceptTold    => Nothing        TellConfirm     Nothing         Nothing;
        RefuseTold    => TellDisconnect TellDisconnect  TellDisconnect  TellDisconnect;
        EndTold       => TellDisconnect TellDisconnect  TellDisconnect  TellDisconnect;
        UnitTold      => Nothing        Nothing         TellUnit        TellUnit;
        ExpeditedTold => Nothing        Nothing         TellExpedited   TellExpedited;
        ResetTold     => Nothing        Nothing         TellReset       Nothing;
        DoneTold      => Nothing        Nothing         Nothing         TellResetDone;
    }
}

/// What a user's end does with an event in a state.
pub fn user_cell(state: UserState, occasion: UserOccasion) -> Cell
    ensures { result ≡ user_cell state occasion }
{
    user_row(occasion)[state as usize]
}

/// What a user's end does, by the numbers of its states and events: its 5 states in the order of `UserState`, and its 13 events in the
/// order of `UserOccasion`, which are 6 requests and 7 effects of the section.
pub fn user_grid() -> Grid<5, 13>
    ensures { IsUserGrid result }
{
    Grid {
        rows: OCCASIONS.map(user_row),
    }
}
