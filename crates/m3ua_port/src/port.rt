//! A port: a stream of messages comes in by pieces, and the events that they bring go out.
ghost use Rattle.std.specs.Prelude.{◌≡◌, ◌≢◌, ◌≤◌, ◌+◌, ◌++◌, [], true, false, length, Ok, Err, IsTrue, OnErr};
ghost use Rattle.m3ua_port.specs.Frames.{frames_of};
ghost use Rattle.m3ua_port.specs.Ports.{answer_of, unless_fault, Brings};

use crate::fault::{PortFault, PortRefused};
use crate::limits::MOST_OCTETS;
use crate::reader::Reader;
use mark::Mark;
use relay_base::{Octets, Pc, StampedList};
use std::alloc::Global;
use std::marker::Model;

/// A stream of M3UA messages (RFC 4666), one after another, and the events that they bring to SCCP at the own point: each is stamped
/// with phase 1, link 1 and the number of its message.
#[derive(Drop)]
pub struct Port {
    reader: Reader,
    /// The first fault, once it was found.
    fault: Option<PortFault>,
    /// Whether memory ran out.
    exhausted: bool,
    /// The octets fed so far.
    fed: Mark<Octets>,
}

impl Model for Port {
    ghost use Rattle.m3ua_port.specs.Ports.{PortState};
    ghost use Rattle.m3ua_port.specs.Inner.Standing.{Stands};

    ghost Value = { PortState };

    ghost view = { λ p. record {
      own = p.reader.own;
      fed = p.fed.value;
      exhausted = p.exhausted;
    } };

    ghost invariant = { λ p. Stands p.reader p.fault p.exhausted p.fed.value };
}

/// No octets are fed yet.
fn none_fed() -> Mark<Octets>
    ensures { result.value ≡ [] }
{
    Mark::after(&0u8)
}

/// These octets are fed too.
fn fed_with(fed: &Mark<Octets>, piece: &[u8]) -> Mark<Octets>
    ensures { result.value ≡ fed.now.value ++ piece.now }
{
    Mark::after(&(fed, piece))
}

impl Port {
    /// A port at which nothing came yet.
    pub fn new(alloc: Global, own: Pc) -> Port
        ensures { result ≡ record { own = own; fed = []; exhausted = false } }
    {
        Port {
            reader: Reader::new(alloc, own),
            fault: None,
            exhausted: false,
            fed: none_fed(),
        }
    }

    /// Puts the events of the messages that are whole with this piece of the stream at the end, up to the first fault. However a stream
    /// is cut into pieces, the events and the fault are the same.
    ///
    /// A fault is answered to each later piece too. After `Memory` the events are as before, and `Memory` is answered to each later piece.
    pub fn feed(&mut self, piece: &[u8], events: &mut StampedList) -> Result<(), PortRefused>
        requires { length self.old.fed + length piece.now ≤ MOST_OCTETS }
        ensures fed { result ≢ Err PortRefused.Memory →
            self.new ≡ record self.old { fed = self.old.fed ++ piece.now } }
        ensures events { result ≢ Err PortRefused.Memory →
            Brings self.old.own self.old.fed self.new.fed events.old events.new }
        ensures answer { result ≢ Err PortRefused.Memory →
            result ≡ answer_of self.old.own self.new.fed }
        ensures again { let before = answer_of self.old.own self.old.fed
            in self.old.exhausted ≡ false → OnErr before (result ≡ before) }
        ensures still { self.old.exhausted ≡ false →
            OnErr (answer_of self.old.own self.old.fed) (events.new ≡ events.old) }
        ensures memory { result ≡ Err PortRefused.Memory →
            self.new ≡ record self.old { exhausted = true } }
        ensures kept { result ≡ Err PortRefused.Memory → events.new ≡ events.old }
        ensures exhausted { IsTrue self.old.exhausted → result ≡ Err PortRefused.Memory }
    {
        if self.exhausted {
            return Err(PortRefused::Memory);
        }
        let fed = fed_with(&self.fed, piece);
        if let Some(fault) = self.fault {
            self.fed = fed;
            return Err(PortRefused::Fault(fault));
        }
        match self.reader.take(piece, events) {
            Ok(()) => {
                self.fed = fed;
                Ok(())
            }
            Err(PortRefused::Fault(fault)) => {
                self.fed = fed;
                self.fault = Some(fault);
                Err(PortRefused::Fault(fault))
            }
            Err(PortRefused::Memory) => {
                self.exhausted = true;
                Err(PortRefused::Memory)
            }
        }
    }

    /// Ends the stream: the fault of all that was fed, if there is one. It is `End` where a part of a message is left.
    pub fn finish(self) -> Result<(), PortFault>
        requires { self.exhausted ≡ false }
        ensures { result ≡ unless_fault (frames_of self.own self.fed).fault }
    {
        if let Some(fault) = self.fault {
            return Err(fault);
        }
        match self.reader.end_fault() {
            Some(fault) => Err(fault),
            None => Ok(()),
        }
    }
}
