//! The events of the generator's lines.
ghost use Rattle.std.specs.Prelude.{◌≡◌, ◌<◌, ◌≤◌, IfOk};
ghost use Rattle.capture_form.specs.declared.steps.TheConstants.{MOST_LINES};
ghost use Rattle.capture_generator.specs.Generator.{next_number, reference_at, unit_octets, request_octets, data_octets, message_at, event_of_kind, event_at, stamp_at, stamped_at};

use plant_core::ControlEvent;
use q713_codec::octets3;
use relay_base::limits::{LINK_SELECTIONS, MOST_LANES, OCTET_VALUES};
use relay_base::{Event, Memory, Octets, Pc, Ref24, Request, Sls, Ssn, Stamp};
use std::alloc::Global;

/// After so many lines come a barrier, a tick and a barrier.
pub const BLOCK: u32 = 400;

/// The next number of the sequence, which is linear modulo 2 ^ 31.
pub fn next_number(x: u32) -> u32
    ensures { result ≡ next_number x }
{
    ((1_103_515_245 * u64::from(x) + 12_345) % 2_147_483_648) as u32
}

/// The reference that a line names: one of the first hundred slots of a lane.
fn reference_at(line: u32) -> Ref24
    ensures { result ≡ reference_at line }
{
    Ref24::new((1 + line % 100) * u32::from(MOST_LANES) + line % 4).unwrap()
}

/// A UDT to subsystem 8, with one octet of data.
fn unit_octets(alloc: Global) -> Result<Octets, Memory>
    ensures { IfOk result (λ octets. octets ≡ unit_octets) }
{
    let octets = [9, 0, 3, 5, 7, 2, 0x42, 8, 2, 0x42, 6, 1, 0xaa];
    Octets::from_slice(alloc, octets.as_slice())
}

/// A CR of class 2 to subsystem 8, with nothing optional.
fn request_octets(alloc: Global, source: Ref24) -> Result<Octets, Memory>
    ensures { IfOk result (λ octets. octets ≡ request_octets source) }
{
    let [low, middle, high] = octets3(source);
    let octets = [1, low, middle, high, 2, 2, 0, 2, 0x42, 8];
    Octets::from_slice(alloc, octets.as_slice())
}

/// A DT1 without more data, of one octet.
fn data_octets(alloc: Global, destination: Ref24, octet: u8) -> Result<Octets, Memory>
    ensures { IfOk result (λ octets. octets ≡ data_octets destination octet) }
{
    let [low, middle, high] = octets3(destination);
    let octets = [6, low, middle, high, 0, 1, 1, octet];
    Octets::from_slice(alloc, octets.as_slice())
}

/// A message from point 2.
fn message_at(line: u32, bytes: Octets) -> Event
    ensures { result ≡ message_at line bytes }
{
    Event::Message {
        opc: Pc::new(2).unwrap(),
        sls: Sls::new(line % LINK_SELECTIONS).unwrap(),
        bytes,
    }
}

/// The acceptance of a connection.
fn acceptance_at(alloc: Global, line: u32) -> Event
    ensures { result ≡ event_of_kind 2 line }
{
    Event::Asked {
        ssn: Ssn::from(8),
        request: Request::Accept {
            mine: reference_at(line),
            class: 2,
            credit: 0,
            body: Octets::new(alloc),
        },
    }
}

/// The event of a line, by its kind 0 to 3: a UDT, a CR, an acceptance, a DT1.
fn event_of_kind(alloc: Global, kind: u32, line: u32) -> Result<Event, Memory>
    requires { line < MOST_LINES }
    ensures { IfOk result (λ event. event ≡ event_of_kind kind line) }
{
    let octets = match kind {
        0 => unit_octets(alloc)?,
        1 => request_octets(alloc, Ref24::new(line + 1).unwrap())?,
        2 => return Ok(acceptance_at(alloc, line)),
        _ => data_octets(alloc, reference_at(line), (line % OCTET_VALUES) as u8)?,
    };
    Ok(message_at(line, octets))
}

/// Where a line stands.
fn stamp_at(line: u32) -> Stamp
    requires { line < MOST_LINES }
    ensures { result ≡ stamp_at line }
{
    let block = line / BLOCK;
    Stamp {
        phase: 1 + 2 * block,
        link: 1,
        line: 6 + line + 3 * block,
    }
}

/// The event of a line that the number `x` picks, with its stamp.
pub fn stamped_at(alloc: Global, x: u32, line: u32) -> Result<(Stamp, ControlEvent), Memory>
    requires { line < MOST_LINES }
    ensures { IfOk result (λ e. e ≡ stamped_at x line) }
{
    let event = event_of_kind(alloc, x / 65_536 % 4, line)?;
    Ok((stamp_at(line), ControlEvent::Plain(event)))
}
