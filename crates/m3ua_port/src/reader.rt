//! The reading of a stream, piece by piece.
ghost use Rattle.std.specs.Prelude.{◌≡◌, ◌<◌, ◌≤◌, ◌+◌, ◌*◌, ◌++◌, [], Ok, Err, length, drop, IfOk, OnOk};
ghost use Rattle.m3ua_port.specs.Frames.{message_length};
ghost use Rattle.m3ua_port.specs.Inner.Reading.{IfFault, LeadsTo, EndsWith, IsPart, Wants, part_fault};

use crate::events::take_message;
use crate::fault::{PortFault, PortKind, PortRefused};
use crate::limits::{HEADER, LONGEST_MESSAGE, MOST_OCTETS};
use crate::message::front_length;
use byteorder::{BigEndian, ByteOrder};
use relay_base::{Memory, Pc, StampedList};
use std::alloc::Global;

/// Where the reading of a stream stands.
#[derive(Drop)]
pub struct Reader {
    pub alloc: Global,
    pub own: Pc,
    /// The number of the next message.
    pub number: u32,
    /// Its octets, as far as they came, where it wasn't whole.
    pub part: Vec<u8>,
}

/// How many octets a part wants: those up to the end of the header, and then those up to the end of the message.
#[tactic(auto, unfolding(crate::specs::Frames::message_length))]
fn wanted(part: &[u8]) -> usize
    requires { message_length part.now ≡ Err PortKind.End }
    ensures some { 0 < result }
    ensures few { length part.now + result ≤ LONGEST_MESSAGE }
    ensures whole { Wants part.now result }
{
    if part.len() < HEADER {
        HEADER - part.len()
    } else {
        BigEndian::read_u32(&part[4..]) as usize - part.len()
    }
}

/// Puts octets at the end of a part.
fn keep(part: &mut Vec<u8>, octets: &[u8]) -> Result<(), Memory>
    ensures { OnOk result (part.new.items ≡ part.old.items ++ octets.now) }
{
    part.extend_from_slice(octets)?;
    Ok(())
}

impl Reader {
    ghost use Rattle.m3ua_port.specs.Inner.Steps.{reading_of, Stepped, Reads, Took, TookToFault};

    /// Nothing came yet.
    pub fn new(alloc: Global, own: Pc) -> Reader
        ensures own { result.own ≡ own }
        ensures number { result.number ≡ 1 }
        ensures part { result.part.items ≡ [] }
    {
        Reader {
            alloc,
            own,
            number: 1,
            part: Vec::new(alloc),
        }
    }

    /// The next message has this fault.
    fn fault(&self, kind: PortKind) -> PortRefused
        ensures { result ≡ PortRefused.Fault (record { message = self.now.number; kind = kind }) }
    {
        PortRefused::Fault(PortFault {
            message: self.number,
            kind,
        })
    }

    /// Reads the message at the front of a piece in its place, or keeps the piece where the message ends behind it.
    fn step_in_piece(
        &mut self,
        piece: &[u8],
        events: &mut StampedList,
    ) -> Result<usize, PortRefused>
        requires empty { self.old.part.items ≡ [] }
        requires some { 0 < length piece.now }
        requires bound { 8 * self.old.number + length piece.now ≤ MOST_OCTETS + 8 }
        ensures ok { IfOk result (λ n.
            Stepped self.old self.new piece.now n events.old events.new) }
        ensures fault { let before = reading_of self.old piece.now events.old
            in IfFault result (λ f. EndsWith self.old.own before events.new f) }
        ensures own { self.new.own ≡ self.old.own }
    {
        match front_length(piece) {
            Ok(Some(size)) => {
                take_message(self.alloc, self.own, self.number, &piece[..size], events)?;
                self.number += 1;
                Ok(size)
            }
            Ok(None) => {
                keep(&mut self.part, piece)?;
                Ok(piece.len())
            }
            Err(kind) => Err(self.fault(kind)),
        }
    }

    /// Reads on with a piece the message of which a part was kept.
    fn step_in_part(&mut self, piece: &[u8], events: &mut StampedList) -> Result<usize, PortRefused>
        requires part { message_length self.old.part.items ≡ Err PortKind.End }
        requires some { 0 < length piece.now }
        requires bound { let held = length self.old.part.items + length piece.now
            in 8 * self.old.number + held ≤ MOST_OCTETS + 8 }
        ensures ok { IfOk result (λ n.
            Stepped self.old self.new piece.now n events.old events.new) }
        ensures fault { let before = reading_of self.old piece.now events.old
            in IfFault result (λ f. EndsWith self.old.own before events.new f) }
        ensures own { self.new.own ≡ self.old.own }
    {
        let count = wanted(&self.part).min(piece.len());
        keep(&mut self.part, &piece[..count])?;
        match front_length(&self.part) {
            Ok(Some(_)) => {
                take_message(self.alloc, self.own, self.number, &self.part, events)?;
                self.part.clear();
                self.number += 1;
                Ok(count)
            }
            Ok(None) => Ok(count),
            Err(kind) => Err(self.fault(kind)),
        }
    }

    /// Reads on with a piece, up to the end of a message at most: the octets that were taken of it.
    fn step(&mut self, piece: &[u8], events: &mut StampedList) -> Result<usize, PortRefused>
        requires part { IsPart self.old.part.items }
        requires some { 0 < length piece.now }
        requires bound { let held = length self.old.part.items + length piece.now
            in 8 * self.old.number + held ≤ MOST_OCTETS + 8 }
        ensures ok { IfOk result (λ n.
            Stepped self.old self.new piece.now n events.old events.new) }
        ensures fault { let before = reading_of self.old piece.now events.old
            in IfFault result (λ f. EndsWith self.old.own before events.new f) }
        ensures own { self.new.own ≡ self.old.own }
    {
        if self.part.is_empty() {
            self.step_in_piece(piece, events)
        } else {
            self.step_in_part(piece, events)
        }
    }

    /// Reads on with a piece: puts the events of the messages that are whole with it at the end, up to the first fault.
    fn read(&mut self, piece: &[u8], events: &mut StampedList) -> Result<(), PortRefused>
        requires part { IsPart self.old.part.items }
        requires bound { let held = length self.old.part.items + length piece.now
            in 8 * self.old.number + held ≤ MOST_OCTETS + 8 }
        ensures ok { OnOk result (Reads self.old self.new piece.now events.old events.new) }
        ensures fault { let before = reading_of self.old piece.now events.old
            in IfFault result (λ f. EndsWith self.old.own before events.new f) }
        ensures own { self.new.own ≡ self.old.own }
    {
        let mut at = 0;
        while at < piece.len() {
            at += self.step(&piece[at..], events)?;
        }
        Ok(())
    }

    /// The fault of a stream that ends here: a message of which only a part came.
    pub fn end_fault(&self) -> Option<PortFault>
        ensures { result ≡ part_fault self.now.number self.now.part.items }
    {
        if self.part.is_empty() {
            None
        } else {
            Some(PortFault {
                message: self.number,
                kind: PortKind::End,
            })
        }
    }

    /// Reads on with a piece, as `read` does; no event is put where memory runs out.
    pub fn take(&mut self, piece: &[u8], events: &mut StampedList) -> Result<(), PortRefused>
        requires part { IsPart self.old.part.items }
        requires bound { let held = length self.old.part.items + length piece.now
            in 8 * self.old.number + held ≤ MOST_OCTETS + 8 }
        ensures ok { OnOk result (Took self.old self.new piece.now events.old events.new) }
        ensures fault { IfFault result (λ f.
            TookToFault self.old piece.now events.old events.new f) }
        ensures memory { result ≡ Err PortRefused.Memory → events.new ≡ events.old }
        ensures own { self.new.own ≡ self.old.own }
    {
        let mut added = StampedList::new(self.alloc);
        match self.read(piece, &mut added) {
            Ok(()) => {
                events.append(added)?;
                Ok(())
            }
            Err(PortRefused::Fault(fault)) => {
                events.append(added)?;
                Err(PortRefused::Fault(fault))
            }
            Err(PortRefused::Memory) => Err(PortRefused::Memory),
        }
    }
}
