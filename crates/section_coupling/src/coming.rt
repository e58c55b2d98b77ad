//! What comes to a connection.
ghost use Rattle.std.specs.Prelude.{◌≡◌};
ghost use Rattle.std.specs.Option.{option_map};
ghost use Rattle.section_model.specs.Step.{destination_of};
ghost use Rattle.section_model.specs.Views.{seen_arrival};
ghost use Rattle.section_coupling.specs.Duos.{arrival_of_event};

use relay_base::{Event, Pc, Ref24, Request, Ssn};
use section_model::{ArrivalView, arrival_in};
use std::marker::Model;

/// An event, with the message for a connection that it is, which is read once. A clause sees it as the event.
#[derive(Drop)]
pub struct ReadEvent<'a> {
    event: &'a Event,
    arrival: Option<ArrivalView<'a>>,
}

impl<'a> Model for ReadEvent<'a> {
    ghost use Rattle.relay_base.specs.declared.words.Event.{Event as EventState};
    ghost use Rattle.std.specs.Prelude.{◌≡◌};
    ghost use Rattle.std.specs.Option.{option_map};
    ghost use Rattle.section_model.specs.Views.{seen_arrival};
    ghost use Rattle.section_coupling.specs.Duos.{arrival_of_event};

    ghost Value = { EventState };

    ghost view = { λ e. e.event.now };

    ghost invariant = { λ e. option_map seen_arrival e.arrival ≡ arrival_of_event e.event.now };
}

impl<'a> ReadEvent<'a> {
    pub fn of(event: &'a Event) -> ReadEvent<'a>
        ensures { result ≡ event.now }
    {
        let arrival = match event {
            Event::Message { bytes, .. } => arrival_in(bytes.as_slice()),
            Event::Asked { .. } | Event::Tick => None,
        };
        ReadEvent { event, arrival }
    }

    pub fn event(&self) -> &'a Event
        ensures { result.now ≡ self.now }
    {
        self.event
    }

    /// The event, and the message for a connection that it is, if it is one.
    pub(crate) fn into_parts(self) -> (&'a Event, Option<ArrivalView<'a>>)
        ensures event { result.0.now ≡ self.entry }
        ensures arrival { option_map seen_arrival result.1 ≡ arrival_of_event self.entry }
    {
        let Self { event, arrival } = self;
        (event, arrival)
    }

    /// The destination local reference of the message for a connection that the event is, if it is one.
    pub fn destination(&self) -> Option<Ref24>
        ensures { result ≡ destination_of (arrival_of_event self.now) }
    {
        match &self.arrival {
            Some(arrival) => Some(arrival.parameters.dlr),
            None => None,
        }
    }
}

/// A message for a connection: its event, the point that it comes from, and what a section looks at in it.
#[derive(Clone, Copy)]
pub struct Coming<'a> {
    pub event: &'a Event,
    pub point: Pc,
    pub arrival: ArrivalView<'a>,
}

/// A request of a subsystem on a connection, with its event.
#[derive(Clone, Copy)]
pub struct Wanting<'a> {
    pub event: &'a Event,
    pub ssn: Ssn,
    pub request: &'a Request,
}
