//! The address of a subsystem alone.
ghost use Rattle.std.specs.Prelude.{◌≡◌};
ghost use Rattle.sccp_address.specs.Subsystems.{subsystem_address};

use relay_base::Ssn;

/// The octets of the address of a subsystem, which routes on its subsystem number and names no point.
pub fn subsystem_address(ssn: Ssn) -> [u8; 2]
    ensures { result ≡ subsystem_address ssn }
{
    [0x42, ssn.number() as u8]
}
