//! A user's end of a connection, with what clauses count of it.
ghost use Rattle.std.specs.Prelude.{◌≡◌, [], IfOk};
ghost use Rattle.section_model.specs.UserEnd.{user_takes};
ghost use Rattle.section_user.specs.Lengths.{IsRequestInRange};
ghost use Rattle.section_user.specs.Side.{user_of, user_hears_event};
ghost use Rattle.section_coupling.specs.Views.{user_at};
ghost use Rattle.section_coupling.specs.Sound.{SoundOwner, IsGranted, SoundActed};

use mark::Mark;
use relay_base::{Event, Memory, Ssn};
use section_model::{Acted, Came, Cell, Hand, Input};
use section_user::UserSide;
use std::alloc::Global;

/// A user's end, and what its user gave, which clauses alone count.
#[derive(Drop)]
pub struct Owner {
    pub side: UserSide,
    pub given: Mark<Came>,
}

/// A user's end upon an event, by a cell.
#[derive(Clone, Copy)]
struct Asking<'a> {
    owner: &'a Owner,
    cell: Cell,
    event: &'a Event,
}

/// A user's end upon an effect of the section, by a cell.
#[derive(Clone, Copy)]
struct Taking<'a> {
    owner: &'a Owner,
    cell: Cell,
    hand: &'a Hand,
}

impl Owner {
    /// A user's end, before the user gives anything.
    pub fn new(side: UserSide) -> Owner
        ensures { user_at result ≡ user_of side [] 0 }
    {
        let given = Mark::after(&side);
        Owner { side, given }
    }

    /// The subsystem whose end it is.
    pub fn ssn(&self) -> Ssn
        ensures { result ≡ self.now.side.ssn }
    {
        self.side.ssn
    }

    /// What the end does upon a request, by the cell of the table.
    pub fn ask(&mut self, alloc: Global, cell: Cell, event: &Event) -> Result<Acted, Memory>
        requires sound { SoundOwner self.old }
        requires range { IsRequestInRange event.now }
        ensures asks { IfOk result (λ acted.
            user_hears_event cell event.now (user_at self.old) ≡ (user_at self.new, acted)) }
        ensures sound { IfOk result (λ acted. SoundOwner self.new × SoundActed acted) }
    {
        let given = Mark::after(&Asking {
            owner: &*self,
            cell,
            event,
        });
        let acted = self.side.act(alloc, cell, &Input::Event(event))?;
        self.given = given;
        Ok(acted)
    }

    /// What the end does upon an effect of the section, by the cell of the table.
    pub fn take(&mut self, alloc: Global, cell: Cell, hand: &Hand) -> Result<Acted, Memory>
        requires sound { SoundOwner self.old }
        requires granted { IsGranted hand.now }
        ensures takes { IfOk result (λ acted.
            user_takes cell hand.now (user_at self.old) ≡ (user_at self.new, acted)) }
        ensures sound { IfOk result (λ acted. SoundOwner self.new × SoundActed acted) }
    {
        let given = Mark::after(&Taking {
            owner: &*self,
            cell,
            hand,
        });
        let acted = self.side.act(alloc, cell, &Input::Hand(hand))?;
        self.given = given;
        Ok(acted)
    }

    /// An equal end.
    pub fn copy(&self) -> Result<Owner, Memory>
        ensures { IfOk result (λ copy. copy ≡ self.now) }
    {
        Ok(Owner {
            side: self.side.copy()?,
            given: Mark::after(self),
        })
    }
}
