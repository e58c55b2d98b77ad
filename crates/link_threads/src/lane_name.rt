//! Which lane of a phase a lane is.
ghost use Rattle.std.specs.Prelude.{◌≡◌};
ghost use Rattle.link_threads.specs.Links.{is_in};

use capture_form::LanePlace;

/// The control lane, or the connection lane or data lane of a number, from 0.
#[derive(Clone, Copy)]
pub enum LaneName {
    Control,
    Conn(usize),
    Data(usize),
}

impl LaneName {
    /// Whether an event of this place stands in the lane.
    pub fn has(self, place: LanePlace) -> bool
        ensures { result ≡ is_in self place }
    {
        match (self, place) {
            (_, LanePlace::All) | (LaneName::Control, LanePlace::Control) => true,
            (LaneName::Conn(number), LanePlace::Conn(lane)) => usize::from(lane) == number,
            (LaneName::Data(number), LanePlace::Unit(lane)) => usize::from(lane) == number,
            _ => false,
        }
    }
}

/// A lane that knows which one it is.
pub trait Named {
    ghost use Rattle.std.specs.Prelude.{◌≡◌};
    ghost use Rattle.link_threads.specs.declared.lane_name.LaneName.{LaneName};

    ghost name_of: { Self → LaneName };

    fn name(&self) -> LaneName
        ensures { result ≡ name_of self.now };
}
