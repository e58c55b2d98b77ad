//! The unit that a user gives (Q.711, N-UNITDATA request).
ghost use Rattle.std.specs.Prelude.{◌≡◌, IsTrue, Some, unwrap_or};
ghost use Rattle.connectionless.specs.Given.{is_address, is_optional_address, is_unit_request, given_of};
ghost use Rattle.connectionless.specs.Inner.Units.{seen_given, IsInRange};
ghost use Rattle.sccp_address.specs.Subsystems.{subsystem_address};

use relay_base::limits::{LONGEST_GIVEN_ADDRESS, LONGEST_GIVEN_UNIT};
use relay_base::{BoxedOctets, Request, Sls, Ssn};
use sccp_address::parse;

/// The unit that a user gives, with its calling address.
#[derive(Clone, Copy)]
pub struct GivenView<'a> {
    pub ssn: Ssn,
    pub sls: Sls,
    /// Class 0 or 1 (Q.713, 3.6).
    pub class: u8,
    /// Whether return is asked on error.
    pub ret: bool,
    pub called: &'a [u8],
    pub calling: &'a [u8],
    pub body: &'a [u8],
}

/// Whether octets are an address that a user may give: at most 40 of them, which parse.
fn is_address(octets: &[u8]) -> bool
    ensures { result ≡ is_address octets.now }
{
    octets.len() <= LONGEST_GIVEN_ADDRESS && parse(octets).is_ok()
}

fn is_optional_address(octets: &Option<BoxedOctets>) -> bool
    ensures { result ≡ is_optional_address octets.now }
{
    match octets {
        Some(octets) => is_address(octets.as_slice()),
        None => true,
    }
}

/// Whether a request is a unit in its ranges.
pub fn is_unit_request(request: &Request) -> bool
    ensures { result ≡ is_unit_request request.now }
{
    let Request::Unit {
        class,
        called,
        calling,
        body,
        ..
    } = request
    else {
        return false;
    };
    *class <= 1
        && is_address(called.as_slice())
        && is_optional_address(calling)
        && body.as_slice().len() <= LONGEST_GIVEN_UNIT
}

/// The calling address that is given, else the user's own one.
fn calling_or<'a>(calling: &'a Option<BoxedOctets>, own: &'a [u8]) -> &'a [u8]
    ensures { result.now ≡ unwrap_or calling.now own.now }
{
    match calling {
        Some(octets) => octets.as_slice(),
        None => own,
    }
}

/// The unit that a request gives, where its subsystem has this address.
#[tactic(auto, unfolding(crate::specs::Given::given_of))]
pub fn given_in<'a>(ssn: Ssn, own: &'a [u8], request: &'a Request) -> GivenView<'a>
    requires unit { IsTrue (is_unit_request request.now) }
    requires own { own.now ≡ subsystem_address ssn }
    ensures value { given_of ssn request.now ≡ Some (seen_given result) }
    ensures range { IsInRange (seen_given result) }
{
    let Request::Unit {
        sls,
        class,
        ret,
        called,
        calling,
        body,
    } = request
    else {
        unreachable!()
    };
    GivenView {
        ssn,
        sls: *sls,
        class: *class,
        ret: *ret,
        called: called.as_slice(),
        calling: calling_or(calling, own),
        body: body.as_slice(),
    }
}
