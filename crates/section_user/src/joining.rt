//! What a user's end puts together: a text from its units.
ghost use Rattle.std.specs.Prelude.{◌≡◌, ◌++◌, length, nat_lt, IfOk, OnErr};
ghost use Rattle.section_model.specs.UserEnd.{collects, overruns, continues, completes};
ghost use Rattle.section_user.specs.Side.{ActsAs};

use crate::side::{UserSide, taken};
use relay_base::causes::RELEASE_ACCESS_CONGESTION;
use relay_base::limits::LONGEST_TEXT;
use relay_base::{Memory, Octets, Outs, Tell};
use section_model::{Acted, Hand, HandList, UserState, copied_octets};
use std::alloc::Global;

/// Whether a text with these octets more is too long.
fn is_too_long(text: &Octets, body: &Octets) -> bool
    ensures { result ≡ nat_lt LONGEST_TEXT (length (text.now ++ body.now)) }
{
    LONGEST_TEXT < text.len().saturating_add(body.len())
}

impl UserSide {
    /// The text is too long: the connection ends, for both ends.
    fn overruns(&mut self, alloc: Global) -> Result<Acted, Memory>
        ensures ok { IfOk result (λ done. ActsAs overruns self.old self.new done) }
        ensures err { OnErr result (self.new ≡ self.old) }
    {
        let tell = Tell::Disc {
            mine: self.mine,
            cause: RELEASE_ACCESS_CONGESTION,
            body: None,
        };
        let mut done = Acted::giving(alloc, self.output_to(tell))?;
        done.first.push(Hand::End {
            cause: RELEASE_ACCESS_CONGESTION,
            body: None,
            importance: None,
        })?;
        self.state = UserState::Gone;
        Ok(done)
    }

    /// The text goes on: a unit joins it.
    fn continues(&mut self, alloc: Global, body: &Octets) -> Result<Acted, Memory>
        ensures ok { IfOk result (λ done. ActsAs (continues body.now) self.old self.new done) }
        ensures err { OnErr result (self.new ≡ self.old) }
    {
        let then = taken(alloc, 1, false)?;
        self.text.extend(body.as_slice())?;
        Ok(Acted {
            first: HandList::new(alloc),
            outs: Outs::new(alloc),
            then,
        })
    }

    /// The text is whole with this unit, and the user is told it.
    fn completes(&mut self, alloc: Global, body: &Octets) -> Result<Acted, Memory>
        ensures ok { IfOk result (λ done. ActsAs (completes body.now) self.old self.new done) }
        ensures err { OnErr result (self.new ≡ self.old) }
    {
        let mut text = copied_octets(&self.text)?;
        text.extend(body.as_slice())?;
        let tell = Tell::Text {
            mine: self.mine,
            body: text,
        };
        let mut done = Acted::giving(alloc, self.output_to(tell))?;
        done.then = taken(alloc, 1, false)?;
        self.text = Octets::new(alloc);
        Ok(done)
    }

    /// A unit comes.
    pub(crate) fn collects(&mut self, alloc: Global, hand: &Hand) -> Result<Acted, Memory>
        ensures ok { IfOk result (λ done. ActsAs (collects hand.now) self.old self.new done) }
        ensures err { OnErr result (self.new ≡ self.old) }
    {
        let Hand::Unit { more, body } = hand else {
            return Ok(Acted::nothing(alloc));
        };
        if is_too_long(&self.text, body) {
            self.overruns(alloc)
        } else if *more {
            self.continues(alloc, body)
        } else {
            self.completes(alloc, body)
        }
    }
}
