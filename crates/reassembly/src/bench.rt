//! Where messages that came in segments are put together.
ghost use Rattle.std.specs.Prelude.{◌≡◌, ◌≤◌, [], IfOk, OnOk, OnErr, slice_get};
ghost use Rattle.std.specs.Option.{option_copied};
ghost use Rattle.reassembly.specs.Reassembly.{takes, ended_by_tick, after_tick};
ghost use Rattle.reassembly.specs.Laws.{IsWithinBounds};

use crate::piece::{Piece, PieceList, Taken};
use crate::process::Process;
use crate::processes::{is_full_for, part, place_of, take_first, take_later};
use relay_base::Memory;
use std::alloc::Global;
use std::marker::Model;
use std::mem;

/// The reassemblies under way, at most 256, in the order in which they began.
#[derive(Drop)]
pub struct Bench {
    alloc: Global,
    /// The ticks that a reassembly has.
    ticks: u32,
    processes: Vec<Process>,
}

impl Model for Bench {
    ghost use Rattle.reassembly.specs.Reassembly.{Reassemblies};

    ghost Value = { Reassemblies };

    ghost view = { λ b. record { ticks = b.ticks; processes = b.processes.items } };

    ghost use Rattle.reassembly.specs.Laws.{IsWithinBounds};

    ghost invariant = { λ b. IsWithinBounds b.processes.items };
}

impl Bench {
    /// No reassembly is under way; each will have this many ticks, at least 1.
    pub fn new(alloc: Global, ticks: u32) -> Bench
        requires { 1 ≤ ticks }
        ensures { result ≡ record { ticks = ticks; processes = [] } }
    {
        Bench {
            alloc,
            ticks,
            processes: Vec::new(alloc),
        }
    }

    /// Takes a segment. After `Memory`, and where there is no room, everything is as before.
    pub fn take(&mut self, piece: Piece) -> Result<Taken, Memory>
        ensures ok { let after = takes self.old.ticks self.old.processes piece
            in IfOk result (λ taken. (self.new.processes, taken) ≡ after) }
        ensures ticks { self.new.ticks ≡ self.old.ticks }
        ensures err { OnErr result (self.new ≡ self.old) }
        ensures bounds { IsWithinBounds self.new.processes }
    {
        if piece.is_first() {
            take_first(&mut self.processes, self.alloc, self.ticks, piece)
        } else {
            take_later(&mut self.processes, &piece)
        }
    }

    /// Lowers each timer, and gives the first segments of the reassemblies that fail, in the order in which these
    /// began. After `Memory` everything is as before.
    pub fn tick(&mut self) -> Result<PieceList, Memory>
        ensures failed { IfOk result (λ failed. failed ≡ ended_by_tick self.old.processes) }
        ensures ok { OnOk result (self.new.processes ≡ after_tick self.old.processes) }
        ensures ticks { self.new.ticks ≡ self.old.ticks }
        ensures err { OnErr result (self.new ≡ self.old) }
        ensures bounds { IsWithinBounds self.new.processes }
    {
        let count = self.processes.len();
        let mut failed = Vec::with_capacity(self.alloc, count)?;
        let mut kept = Vec::with_capacity(self.alloc, count)?;
        let processes = mem::replace(&mut self.processes, Vec::new(self.alloc));
        part(processes, &mut failed, &mut kept);
        self.processes = kept;
        Ok(PieceList::from(failed))
    }

    /// The first segment that `take` of this piece would answer as failed.
    pub fn ending(&self, piece: &Piece) -> Option<&Piece>
        ensures { let after = takes self.now.ticks self.now.processes piece.now
            in option_copied result ≡ after.1.failed }
    {
        if is_full_for(&self.processes, piece) {
            return None;
        }
        let at = place_of(&self.processes, piece)?;
        let process = &self.processes[at];
        if !piece.is_first() && process.awaits(piece) {
            return None;
        }
        Some(&process.first)
    }

    /// The member at this place, from 0, of the list that the next `tick` would answer.
    pub fn due(&self, at: usize) -> Option<&Piece>
        ensures { option_copied result ≡ slice_get (ended_by_tick self.now.processes) at }
    {
        let due = self.processes.iter().filter(|process| process.is_due());
        due.map(|process| &process.first).nth(at)
    }
}
