//! What waits for a tick (Q.714, 5.3.4 and 5.3.5).
ghost use Rattle.std.specs.Prelude.{◌≡◌, ◌<◌, map, filter, not, position, vec_len, IsOk, OnOk, OnErr};
ghost use Rattle.std.specs.Vec.{vec_capacity};
ghost use Rattle.scmg.specs.Control.{is_due_coordination, is_coordination_before, with_coordination, without_coordination, lowered, coordinations_after_tick};

use relay_base::{Memory, Pc, Ssn};

/// A coordinated change that a user asked for: the point of its replicate, and the ticks until it is denied.
#[derive(Clone, Copy)]
pub struct Coordination {
    pub ssn: Ssn,
    pub point: Pc,
    pub left: u32,
}

impl Coordination {
    /// Whether the next tick denies it.
    pub fn is_due(&self) -> bool
        ensures { result ≡ is_due_coordination self.now }
    {
        self.left <= 1
    }

    fn is_before(&self, other: &Coordination) -> bool
        ensures { result ≡ is_coordination_before self.now other.now }
    {
        self.ssn.number() < other.ssn.number()
    }

    fn lowered(&self) -> Coordination
        ensures { result ≡ lowered self.now }
    {
        Coordination {
            left: self.left.saturating_sub(1),
            ..*self
        }
    }
}

fn coordination_place(list: &[Coordination], one: &Coordination) -> Option<usize>
    ensures { result ≡ position (is_coordination_before one.now) list.now }
{
    list.iter().position(|other| one.is_before(other))
}

/// Puts a coordinated change at its place.
pub fn put_coordination(list: &mut Vec<Coordination>, one: Coordination) -> Result<(), Memory>
    ensures ok { OnOk result (list.new.items ≡ with_coordination one list.old.items) }
    ensures err { OnErr result (list.new.items ≡ list.old.items) }
    ensures memory { vec_len list.old < vec_capacity list.old → IsOk result }
{
    let place = coordination_place(list, &one).unwrap_or(list.len());
    list.insert(place, one)?;
    Ok(())
}

/// Takes the coordinated change of a user away.
pub fn drop_coordination(list: &mut Vec<Coordination>, ssn: Ssn)
    ensures { list.new.items ≡ without_coordination ssn list.old.items }
{
    list.retain(|one| one.ssn != ssn);
}

fn lower(list: &mut Vec<Coordination>)
    ensures { list.new.items ≡ map lowered list.old.items }
{
    for place in 0..list.len() {
        list[place] = list[place].lowered();
    }
}

/// Takes those away that are denied, and lowers the ticks of the others.
pub fn tick_coordinations(list: &mut Vec<Coordination>)
    ensures { list.new.items ≡ coordinations_after_tick list.old.items }
{
    list.retain(|one| !one.is_due());
    lower(list);
}
