//! Sets of numbers, with a mark for each number.
ghost use Rattle.std.specs.Prelude.{◌≡◌, ◌⊎◌, ◌==◌, ◌<◌, [], true, false, get_or, length, replicate, set, IsTrue, IsOk, IfOk, OnOk, OnErr};
ghost use Rattle.plant_core.specs.Plant.{is_among};
ghost use Rattle.plant_core.specs.Changes.{but_for, with_number};
ghost use Rattle.plant_core.specs.Inner.Members.{marked_from};

use relay_base::Memory;
use std::alloc::Global;
use std::marker::Model;
use std::mem;

/// A mark for each number below a size; or none.
#[derive(Drop)]
pub struct Marks {
    marks: Vec<bool>,
}

impl Model for Marks {
    ghost use Rattle.std.specs.Prelude.{Bool, List};

    ghost Value = { List Bool };

    ghost view = { λ m. m.marks.items };
}

impl Marks {
    pub fn none(alloc: Global) -> Marks
        ensures { result ≡ [] }
    {
        Marks {
            marks: Vec::new(alloc),
        }
    }

    /// Marks for so many numbers, of which none is a member.
    pub fn cleared(alloc: Global, size: usize) -> Result<Marks, Memory>
        ensures { IfOk result (λ m. m ≡ replicate size false) }
    {
        Ok(Marks {
            marks: vec![in alloc; false; size]?,
        })
    }

    pub fn copy(&self) -> Result<Marks, Memory>
        ensures { IfOk result (λ m. m ≡ self.now) }
    {
        Ok(Marks {
            marks: self.marks.clone()?,
        })
    }

    pub fn is_none(&self) -> bool
        ensures { result ≡ (length self.now == 0) }
    {
        self.marks.is_empty()
    }

    pub fn has(&self, number: usize) -> bool
        ensures { result ≡ get_or self.now number false }
    {
        match self.marks.get(number) {
            Some(mark) => *mark,
            None => false,
        }
    }

    pub fn put(&mut self, number: usize)
        requires { number < length self.old }
        ensures { self.new ≡ set self.old number true }
    {
        self.marks[number] = true;
    }

    pub fn take(&mut self, number: usize)
        ensures { self.new ≡ set self.old number false }
    {
        if number < self.marks.len() {
            self.marks[number] = false;
        }
    }
}

/// Takes marks that are spare, where there are none.
pub fn fill(alloc: Global, marks: &mut Marks, spare: &mut Marks, size: usize)
    requires some { 0 < size }
    requires whole { (marks.old ≡ []) ⊎ (length marks.old ≡ size) }
    requires spare { (spare.old ≡ []) ⊎ (spare.old ≡ replicate size false) }
    requires ready { (length marks.old ≡ size) ⊎ (length spare.old ≡ size) }
    ensures members { marked_from 0 marks.new ≡ marked_from 0 marks.old }
    ensures len { length marks.new ≡ size }
    ensures spare { (spare.new ≡ []) ⊎ (spare.new ≡ replicate size false) }
{
    if marks.is_none() {
        *marks = mem::replace(spare, Marks::none(alloc));
    }
}

/// Numbers below a size. It takes memory for its marks with the first one that is put in.
#[derive(Drop)]
pub struct Members {
    marks: Marks,
    /// The marks of the first one that is put in; or none.
    spare: Marks,
    size: usize,
    alloc: Global,
}

impl Model for Members {
    ghost use Rattle.std.specs.Prelude.{◌≡◌, ◌==◌, ◌||◌, ◌<◌, ◌⊎◌, [], false, length, replicate};
    ghost use Rattle.plant_core.specs.Inner.Members.{MembersState, marked_from};

    ghost Value = { MembersState };

    ghost view = { λ m. record {
      members = marked_from 0 m.marks;
      size = m.size;
      has_room = length m.marks == m.size || length m.spare == m.size;
    } };

    ghost invariant = { λ m. (0 < m.size) × ((m.marks ≡ []) ⊎ (length m.marks ≡ m.size))
        × ((m.spare ≡ []) ⊎ (m.spare ≡ replicate m.size false)) };
}

impl Members {
    /// No numbers.
    pub fn new(alloc: Global, size: usize) -> Members
        requires { 0 < size }
        ensures members { result.members ≡ [] }
        ensures size { result.size ≡ size }
    {
        Members {
            marks: Marks::none(alloc),
            spare: Marks::none(alloc),
            size,
            alloc,
        }
    }

    /// The same numbers.
    pub fn copy(&self) -> Result<Members, Memory>
        ensures members { IfOk result (λ m. m.members ≡ self.now.members) }
        ensures size { IfOk result (λ m. m.size ≡ self.now.size) }
    {
        Ok(Members {
            marks: self.marks.copy()?,
            spare: Marks::none(self.alloc),
            size: self.size,
            alloc: self.alloc,
        })
    }

    /// Whether a number is among them.
    pub fn has(&self, number: usize) -> bool
        ensures { result ≡ is_among number self.now.members }
    {
        self.marks.has(number)
    }

    /// Takes memory: none that is put in is refused.
    pub fn make_room(&mut self) -> Result<(), Memory>
        ensures members { self.new.members ≡ self.old.members }
        ensures size { self.new.size ≡ self.old.size }
        ensures room { OnOk result (IsTrue self.new.has_room) }
        ensures memory { IsTrue self.old.has_room → IsOk result }
    {
        if self.marks.is_none() && self.spare.is_none() {
            self.spare = Marks::cleared(self.alloc, self.size)?;
        }
        Ok(())
    }

    /// Puts a number in its place, for which room was made.
    fn mark(&mut self, number: usize)
        requires below { number < self.old.size }
        requires room { IsTrue self.old.has_room }
        ensures members { self.new.members ≡ with_number number self.old.members }
        ensures size { self.new.size ≡ self.old.size }
        ensures room { IsTrue self.new.has_room }
    {
        fill(self.alloc, &mut self.marks, &mut self.spare, self.size);
        self.marks.put(number);
    }

    /// Puts a number in its place.
    pub fn put(&mut self, number: usize) -> Result<(), Memory>
        requires below { number < self.old.size }
        ensures ok { OnOk result (self.new.members ≡ with_number number self.old.members) }
        ensures err { OnErr result (self.new.members ≡ self.old.members) }
        ensures size { self.new.size ≡ self.old.size }
        ensures room { OnOk result (IsTrue self.new.has_room) }
        ensures memory { IsTrue self.old.has_room → IsOk result }
    {
        self.make_room()?;
        self.mark(number);
        Ok(())
    }

    /// Takes a number out.
    pub fn take(&mut self, number: usize)
        ensures members { self.new.members ≡ but_for number self.old.members }
        ensures size { self.new.size ≡ self.old.size }
        ensures room { self.new.has_room ≡ self.old.has_room }
    {
        self.marks.take(number);
    }
}
