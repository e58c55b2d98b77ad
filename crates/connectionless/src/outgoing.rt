//! A user's unit that goes to another point, as one UDT or cut into segments (Q.714, 4.1.1).
ghost use Rattle.std.specs.Prelude.{◌≡◌, false, IfOk};
ghost use Rattle.connectionless.specs.Given.{is_cut, cutting, whole_output, sent_outputs};
ghost use Rattle.connectionless.specs.Inner.Units.{seen_outgoing, seen_cut, IsShort, IsCuttable};

use crate::cutting::{CutUnit, return_bit};
use crate::given::GivenView;
use crate::leaving::octets_of;
use crate::unitdata::{Kind, UnitView};
use plant_core::MOST_HOPS;
use q713_codec::LONGEST;
use relay_base::limits::LONGEST_PARAMETER;
use relay_base::{Memory, Output, Outs, Pc, Ref24};
use std::alloc::Global;

/// A user's unit, with its called address as it goes on, the point that it goes to, and the reference that its segments have.
#[derive(Clone, Copy)]
pub struct OutgoingUnit<'a> {
    pub given: &'a GivenView<'a>,
    pub called: &'a [u8],
    pub point: Pc,
    pub reference: Ref24,
}

impl OutgoingUnit<'_> {
    /// Whether it is cut into segments.
    fn is_cut(&self) -> bool
        requires { IsShort (seen_outgoing self.now) }
        ensures { result ≡ is_cut (seen_outgoing self.now) }
    {
        let given = self.given;
        let size = 8 + self.called.len() + given.calling.len() + given.body.len();
        !(given.body.len() <= LONGEST_PARAMETER && size <= LONGEST)
    }

    /// What is cut: it leaves its origin, and has no importance.
    fn cutting(&self) -> CutUnit<'_>
        requires { IsShort (seen_outgoing self.now) }
        ensures value { seen_cut result ≡ cutting (seen_outgoing self.now) }
        ensures cuttable { IsCuttable (seen_cut result) }
    {
        let given = self.given;
        CutUnit {
            point: self.point,
            sls: given.sls,
            class: given.class,
            ret: given.ret,
            hop: MOST_HOPS,
            called: self.called,
            calling: given.calling,
            body: given.body,
            importance: None,
            reference: self.reference,
        }
    }

    /// The unit as one UDT.
    #[tactic(auto, unfolding(crate::specs::Given::whole_output))]
    fn whole(&self, alloc: Global) -> Result<Output, Memory>
        requires short { IsShort (seen_outgoing self.now) }
        requires uncut { is_cut (seen_outgoing self.now) ≡ false }
        ensures { IfOk result (λ output. output ≡ whole_output (seen_outgoing self.now)) }
    {
        let given = self.given;
        let unit = UnitView {
            kind: Kind::Basic,
            is_service: false,
            first: given.class + return_bit(given.ret),
            hop: None,
            called: self.called,
            calling: given.calling,
            body: given.body,
            segmentation: None,
            importance: None,
        };
        Ok(Output::Sent {
            point: self.point,
            sls: given.sls,
            bytes: octets_of(alloc, &unit)?,
        })
    }

    /// What leaves, and whether it was cut into segments.
    #[tactic(auto, unfolding(crate::specs::Given::sent_outputs))]
    pub fn sending(&self, alloc: Global) -> Result<(Outs, bool), Memory>
        requires { IsShort (seen_outgoing self.now) }
        ensures outs { IfOk result (λ x. x.0 ≡ sent_outputs (seen_outgoing self.now)) }
        ensures cut { IfOk result (λ x. x.1 ≡ is_cut (seen_outgoing self.now)) }
    {
        if self.is_cut() {
            return Ok((self.cutting().segments(alloc)?, true));
        }
        let mut outs = Outs::new(alloc);
        outs.push(self.whole(alloc)?)?;
        Ok((outs, false))
    }
}
