//! Events, requests, and what comes of them.
ghost use Rattle.std.specs.Prelude.{◌≡◌, IfOk};

use crate::errors::Memory;
use crate::numbers::{Pc, Ref24, Sls, Ssn};
use crate::octets::{BoxedOctets, Octets};
use std::alloc::AllocError;

/// Where an event stands in the input: its phase, its link and its line.
#[derive(Clone, Copy, Debug, PartialEq, Eq)]
pub struct Stamp {
    pub phase: u32,
    pub link: u8,
    pub line: u32,
}

/// What a lane takes.
#[derive(Clone)]
pub enum Event {
    Message { opc: Pc, sls: Sls, bytes: Octets },
    Asked { ssn: Ssn, request: Request },
    Tick,
}

impl Drop for Event {
    fn drop(self) {
        match self {
            Event::Message {
                opc: _,
                sls: _,
                bytes: _bytes,
            } => {}
            Event::Asked {
                ssn: _,
                request: _request,
            } => {}
            Event::Tick => {}
        }
    }
}

impl Event {
    /// A copy of the event.
    pub fn copied(&self) -> Result<Event, Memory>
        ensures { IfOk result (λ copy. copy ≡ self.now) }
    {
        Ok(self.clone()?)
    }
}

/// What a user asks for.
pub enum Request {
    Unit {
        sls: Sls,
        class: u8,
        ret: bool,
        called: BoxedOctets,
        calling: Option<BoxedOctets>,
        body: BoxedOctets,
    },
    Conn {
        tag: u16,
        class: u8,
        credit: u8,
        called: BoxedOctets,
        body: Octets,
    },
    Accept {
        mine: Ref24,
        class: u8,
        credit: u8,
        body: Octets,
    },
    Refuse {
        mine: Ref24,
        cause: u8,
        body: Octets,
    },
    Send {
        mine: Ref24,
        body: Octets,
    },
    Expedite {
        mine: Ref24,
        body: Octets,
    },
    Reset {
        mine: Ref24,
    },
    Disc {
        mine: Ref24,
        cause: u8,
        body: Octets,
    },
    Coord,
    Grant {
        point: Pc,
    },
}

impl Drop for Request {
    fn drop(self) {
        match self {
            Request::Unit {
                sls: _,
                class: _,
                ret: _,
                called: _called,
                calling: _calling,
                body: _body,
            } => {}
            Request::Conn {
                tag: _,
                class: _,
                credit: _,
                called: _called,
                body: _body,
            } => {}
            Request::Accept {
                mine: _,
                class: _,
                credit: _,
                body: _body,
            } => {}
            Request::Refuse {
                mine: _,
                cause: _,
                body: _body,
            } => {}
            Request::Send {
                mine: _,
                body: _body,
            } => {}
            Request::Expedite {
                mine: _,
                body: _body,
            } => {}
            Request::Reset { mine: _ } => {}
            Request::Disc {
                mine: _,
                cause: _,
                body: _body,
            } => {}
            Request::Coord => {}
            Request::Grant { point: _ } => {}
        }
    }
}

/// A copy of a unit that is asked for.
fn copied_unit(
    sls: Sls,
    class: u8,
    ret: bool,
    called: &BoxedOctets,
    calling: &Option<BoxedOctets>,
    body: &BoxedOctets,
) -> Result<Request, AllocError>
    ensures { let unit = Request.Unit sls class ret called.now calling.now body.now
        in IfOk result (λ copy. copy ≡ unit) }
{
    let called = called.clone()?;
    let calling = calling.clone()?;
    let body = body.clone()?;
    Ok(Request::Unit {
        sls,
        class,
        ret,
        called,
        calling,
        body,
    })
}

impl Clone for Request {
    ghost is_clone = { λ o copy. copy ≡ o };

    fn clone(&self) -> Result<Request, AllocError> {
        match self {
            Request::Unit {
                sls,
                class,
                ret,
                called,
                calling,
                body,
            } => copied_unit(*sls, *class, *ret, called, calling, body),
            Request::Conn {
                tag,
                class,
                credit,
                called,
                body,
            } => Ok(Request::Conn {
                tag: *tag,
                class: *class,
                credit: *credit,
                called: called.clone()?,
                body: body.clone()?,
            }),
            Request::Accept {
                mine,
                class,
                credit,
                body,
            } => Ok(Request::Accept {
                mine: *mine,
                class: *class,
                credit: *credit,
                body: body.clone()?,
            }),
            Request::Refuse { mine, cause, body } => Ok(Request::Refuse {
                mine: *mine,
                cause: *cause,
                body: body.clone()?,
            }),
            Request::Send { mine, body } => Ok(Request::Send {
                mine: *mine,
                body: body.clone()?,
            }),
            Request::Expedite { mine, body } => Ok(Request::Expedite {
                mine: *mine,
                body: body.clone()?,
            }),
            Request::Reset { mine } => Ok(Request::Reset { mine: *mine }),
            Request::Disc { mine, cause, body } => Ok(Request::Disc {
                mine: *mine,
                cause: *cause,
                body: body.clone()?,
            }),
            Request::Coord => Ok(Request::Coord),
            Request::Grant { point } => Ok(Request::Grant { point: *point }),
        }
    }
}

/// What a user is told.
pub enum Tell {
    Unit {
        class: u8,
        called: BoxedOctets,
        calling: BoxedOctets,
        body: BoxedOctets,
    },
    Notice {
        cause: u8,
        called: BoxedOctets,
        calling: BoxedOctets,
        body: BoxedOctets,
    },
    Conn {
        mine: Ref24,
        class: u8,
        credit: u8,
        called: BoxedOctets,
        calling: Option<BoxedOctets>,
        body: Option<BoxedOctets>,
    },
    Named {
        tag: u16,
        mine: Ref24,
    },
    NotMade {
        tag: u16,
        cause: u8,
    },
    Confirm {
        mine: Ref24,
        class: u8,
        credit: u8,
        called: Option<BoxedOctets>,
        body: Option<BoxedOctets>,
    },
    Text {
        mine: Ref24,
        body: Octets,
    },
    Expedited {
        mine: Ref24,
        body: Octets,
    },
    Renewed {
        mine: Ref24,
        cause: u8,
    },
    ResetDone {
        mine: Ref24,
    },
    Disc {
        mine: Ref24,
        cause: u8,
        body: Option<BoxedOctets>,
    },
    State {
        ssn: Ssn,
        point: Pc,
        up: bool,
    },
    Point {
        point: Pc,
        up: bool,
    },
    Coord {
        point: Pc,
    },
    Granted {
        point: Pc,
    },
    Denied {
        point: Pc,
    },
    No(Reason),
}

impl Drop for Tell {
    fn drop(self) {
        match self {
            Tell::Unit {
                class: _,
                called: _called,
                calling: _calling,
                body: _body,
            } => {}
            Tell::Notice {
                cause: _,
                called: _called,
                calling: _calling,
                body: _body,
            } => {}
            Tell::Conn {
                mine: _,
                class: _,
                credit: _,
                called: _called,
                calling: _calling,
                body: _body,
            } => {}
            Tell::Named { tag: _, mine: _ } => {}
            Tell::NotMade { tag: _, cause: _ } => {}
            Tell::Confirm {
                mine: _,
                class: _,
                credit: _,
                called: _called,
                body: _body,
            } => {}
            Tell::Text {
                mine: _,
                body: _body,
            } => {}
            Tell::Expedited {
                mine: _,
                body: _body,
            } => {}
            Tell::Renewed { mine: _, cause: _ } => {}
            Tell::ResetDone { mine: _ } => {}
            Tell::Disc {
                mine: _,
                cause: _,
                body: _body,
            } => {}
            Tell::State {
                ssn: _,
                point: _,
                up: _,
            } => {}
            Tell::Point { point: _, up: _ } => {}
            Tell::Coord { point: _ } => {}
            Tell::Granted { point: _ } => {}
            Tell::Denied { point: _ } => {}
            Tell::No(_) => {}
        }
    }
}

/// Why a request was refused.
#[derive(Clone, Copy)]
pub enum Reason {
    Owner,
    State,
    Class,
    Full,
    Expedited,
    Unknown,
    Replicate,
}

/// Why a message is not read.
#[derive(Clone, Copy)]
pub enum ReadFault {
    Empty,
    UnknownType(u8),
    Short,
    PointerOut(u16),
    ValueLength(u8),
}

/// What was dropped, and why.
#[derive(Clone, Copy)]
pub enum Lost {
    Read(ReadFault),
    Long,
    Address,
    Class,
    Point,
    State,
    Stray,
    Segment,
    Manage,
    Cause(u8),
    Same,
    Duplicate,
    RowsFull,
    NoRow,
}

/// What a step gives.
#[derive(Drop)]
pub enum Output {
    Sent { point: Pc, sls: Sls, bytes: Octets },
    Told { ssn: Ssn, tell: Tell },
    Lost(Lost),
}
