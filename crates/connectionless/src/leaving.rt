//! What leaves the node (Q.714, 4.1).
ghost use Rattle.std.specs.Prelude.{◌≡◌, IfOk, IsTrue};
ghost use Rattle.q713_codec.specs.Writing.{is_in_range};
ghost use Rattle.connectionless.specs.Unitdata.{message_of};
ghost use Rattle.connectionless.specs.Inner.Units.{seen_unit};
ghost use Rattle.connectionless.specs.Leaving.{leaving_octets, unit_octets};

use crate::unitdata::{Kind, UnitView, view_of};
use q713_codec::{LONGEST, write_unit};
use relay_base::{Memory, Octets};
use std::alloc::Global;

/// The octets of a unit that may leave: its lengths and pointers are in range, and it has at most 268 octets, unless it is LUDT or
/// LUDTS.
#[tactic(auto, unfolding(crate::specs::Leaving::leaving_octets))]
pub fn leaving_octets(alloc: Global, unit: &UnitView<'_>) -> Result<Option<Octets>, Memory>
    ensures { IfOk result (λ octets. octets ≡ leaving_octets (seen_unit unit.now)) }
{
    let longest = match unit.kind {
        Kind::Basic | Kind::Extended => Some(LONGEST),
        Kind::Long => None,
    };
    write_unit(alloc, &view_of(unit), longest)
}

/// The octets of a unit that is in range.
pub fn octets_of(alloc: Global, unit: &UnitView<'_>) -> Result<Octets, Memory>
    requires { IsTrue (is_in_range (message_of (seen_unit unit.now))) }
    ensures { IfOk result (λ octets. octets ≡ unit_octets (seen_unit unit.now)) }
{
    let Some(octets) = write_unit(alloc, &view_of(unit), None)? else {
        unreachable!()
    };
    Ok(octets)
}
