//! The called address as it leaves.
ghost use Rattle.std.specs.Prelude.{◌≡◌, IfOk, Ok};
ghost use Rattle.sccp_address.specs.Form.{seen};
ghost use Rattle.sccp_address.specs.Parsing.{address_of, IsInForm};
ghost use Rattle.sccp_address.specs.Spelling.{address_spelling};
ghost use Rattle.plant_core.specs.Rewriting.{address_after, called_onward};

use crate::answer::Rewrite;
use relay_base::{Memory, Octets};
use sccp_address::{Address, parse, spell};
use std::alloc::Global;

/// The octets of a called address, in form, as it leaves (Q.714, 2.4).
pub fn rewritten(alloc: Global, called: &Address<'_>, rewrite: &Rewrite) -> Result<Octets, Memory>
    requires { IsInForm (seen called.now) }
    ensures value { let after = address_after (seen called.now) rewrite.now
        in IfOk result (λ o. o ≡ address_spelling after) }
    ensures read_back { let after = address_after (seen called.now) rewrite.now
        in IfOk result (λ o. address_of o ≡ Ok after) }
{
    match rewrite {
        Rewrite::Keep => spell(alloc, called),
        Rewrite::Set { ssn, on_ssn } => {
            let leaving = Address {
                point: None,
                ssn: ssn.or(called.ssn),
                title: called.title.copied(),
                on_ssn: *on_ssn,
            };
            spell(alloc, &leaving)
        }
    }
}

/// The octets of a called address as it goes on; those that are no address stay as they are.
#[tactic(auto, unfolding(crate::specs::Rewriting::called_onward))]
pub fn called_onward(alloc: Global, called: &[u8], rewrite: &Rewrite) -> Result<Octets, Memory>
    ensures { IfOk result (λ octets. octets ≡ called_onward rewrite.now called.now) }
{
    match parse(called) {
        Ok(address) => rewritten(alloc, &address, rewrite),
        Err(_) => Octets::from_slice(alloc, called),
    }
}
