//! What came from a source and is not read yet.
ghost use Rattle.std.specs.Prelude.{◌≡◌, ◌+◌, ◌++◌, ◌≤◌, false, [], length, take, drop, OnOk};
ghost use Rattle.relay_base.specs.declared.limits.TheConstants.{MOST_BYTES};

use relay_base::Memory;
use std::alloc::Global;

mod coming;

/// How many octets a feed has room for when it is given back.
const LEAST_ROOM: usize = 65_536;

/// The octets that came and are not read yet, how many came at all, and whether none comes any more.
#[derive(Drop)]
pub struct Feed {
    text: Vec<u8>,
    came: usize,
    ended: bool,
    ghost few: { came ≤ MOST_BYTES },
    ghost held: { length text.items ≤ came },
}

impl Feed {
    pub fn new(alloc: Global) -> Feed
        ensures text { result.text.items ≡ [] }
        ensures came { result.came ≡ 0 }
        ensures ended { result.ended ≡ false }
    {
        Feed {
            text: Vec::new(alloc),
            came: 0,
            ended: false,
        }
    }

    /// Whether no octet comes any more.
    pub fn has_ended(&self) -> bool
        ensures { result ≡ self.now.ended }
    {
        self.ended
    }

    /// The first octets.
    pub fn front(&self, count: usize) -> &[u8]
        requires { count ≤ length self.now.text.items }
        ensures { result.now ≡ take count self.now.text.items }
    {
        &self.text[..count]
    }

    fn add(&mut self, octets: &[u8]) -> Result<(), Memory>
        requires { self.old.came + length octets.now ≤ MOST_BYTES }
        ensures text { OnOk result (self.new.text.items ≡ self.old.text.items ++ octets.now) }
        ensures came { OnOk result (self.new.came ≡ self.old.came + length octets.now) }
        ensures ended { OnOk result (self.new.ended ≡ self.old.ended) }
    {
        self.text.extend_from_slice(octets)?;
        self.came += octets.len();
        Ok(())
    }

    /// The first octets were read.
    pub fn go_on(&mut self, count: usize) -> Result<(), Memory>
        requires { count ≤ length self.old.text.items }
        ensures text { OnOk result (self.new.text.items ≡ drop count self.old.text.items) }
        ensures came { OnOk result (self.new.came ≡ self.old.came) }
        ensures ended { OnOk result (self.new.ended ≡ self.old.ended) }
    {
        let rest = self.text.split_off(count)?;
        self.text.clear();
        self.text.extend_from_slice(rest.as_slice())?;
        Ok(())
    }

    /// Gives most of the memory back by making the room smaller. Where a piece of more than 128 KiB is given back at once, the C library holds from then on more
    /// of what is given back after it: a tenth more memory of a run.
    pub fn shrink(&mut self)
        ensures text { self.new.text.items ≡ self.old.text.items }
        ensures came { self.new.came ≡ self.old.came }
        ensures ended { self.new.ended ≡ self.old.ended }
    {
        self.text.shrink_to(LEAST_ROOM);
    }
}
