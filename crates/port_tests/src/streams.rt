//! Streams of M3UA messages, fed whole and octet by octet, and their faults.
use m3ua_port::limits::MOST_OCTETS;
use m3ua_port::{Port, PortFault, PortKind, PortRefused, wrap};
use relay_base::{Event, Pc, Sls, Stamp, StampedList};
use std::alloc::Global;
use std::process::Abort;
use std::test::Fail;

/// From point 200 to point 100, with the link selection 5: a unitdata message of 13 octets.
const STREAM: &[u8] =
    b"\x01\x00\x01\x01\x00\x00\x00\x28\x02\x10\x00\x1d\x00\x00\x00\xc8\x00\x00\x00\x64\x03\x00\x00\x05\x09\x00\x03\x05\x07\x02\x42\x08\x02\x42\x06\x01\xaa\x00\x00\x00";

/// From point 100 to point 200, with the link selection 5.
const ANSWER: &[u8] =
    b"\x01\x00\x01\x01\x00\x00\x00\x28\x02\x10\x00\x1d\x00\x00\x00\x64\x00\x00\x00\xc8\x03\x00\x00\x05\x0a\x04\x03\x05\x07\x02\x42\x06\x02\x42\x09\x01\xaa\x00\x00\x00";

/// The fault of a stream that is fed whole to a port at point 100.
fn fault_of(
    alloc: Global,
    stream: &[u8],
    events: &mut StampedList,
) -> Result<Option<PortFault>, Fail> {
    if stream.len() > MOST_OCTETS {
        return Err("stream".into());
    }
    let mut port = Port::new(alloc, Pc::new(100).ok_or("point")?);
    match port.feed(stream, events) {
        Ok(()) => Ok(port.finish().err()),
        Err(PortRefused::Fault(fault)) => Ok(Some(fault)),
        Err(PortRefused::Memory) => Err("memory".into()),
    }
}

/// The same, where it is fed octet by octet.
fn fault_by_octets(
    alloc: Global,
    stream: &[u8],
    events: &mut StampedList,
) -> Result<Option<PortFault>, Fail> {
    if stream.len() > MOST_OCTETS {
        return Err("stream".into());
    }
    let mut port = Port::new(alloc, Pc::new(100).ok_or("point")?);
    for octet in stream {
        match port.feed(&[*octet], events) {
            Ok(()) => {}
            Err(PortRefused::Fault(fault)) => return Ok(Some(fault)),
            Err(PortRefused::Memory) => return Err("memory".into()),
        }
    }
    Ok(port.finish().err())
}

/// There is one event, which brings octets of the first message from a point with the link selection 5.
fn assert_brings(rt: &impl Abort, events: &StampedList, opc: u32, octets: &[u8]) {
    assert_eq!(rt; events.len(), 1);
    for (stamp, event) in events.as_slice() {
        let wanted = Stamp {
            phase: 1,
            link: 1,
            line: 1,
        };
        assert_eq!(rt; *stamp, wanted);
        let Event::Message {
            opc: from,
            sls,
            bytes,
        } = event
        else {
            assert!(rt; false, "no message");
            return;
        };
        assert_eq!(rt; (from.number(), sls.number()), (opc, 5));
        assert_eq!(rt; bytes.as_slice(), octets);
    }
}

#[test]
fn a_stream_brings_its_message(rt: HostRuntime) -> Result<(), Fail> {
    let mut events = StampedList::new(rt.alloc());
    assert_eq!(rt; fault_of(rt.alloc(), STREAM, &mut events)?, None);
    assert_brings(&rt, &events, 200, &STREAM[24..37]);
    Ok(())
}

#[test]
fn a_stream_brings_its_message_octet_by_octet(rt: HostRuntime) -> Result<(), Fail> {
    let mut events = StampedList::new(rt.alloc());
    assert_eq!(rt; fault_by_octets(rt.alloc(), STREAM, &mut events)?, None);
    assert_brings(&rt, &events, 200, &STREAM[24..37]);
    Ok(())
}

#[test]
fn octets_are_wrapped(rt: HostRuntime) -> Result<(), Fail> {
    let own = Pc::new(100).ok_or("own")?;
    let point = Pc::new(200).ok_or("point")?;
    let sls = Sls::new(5).ok_or("selection")?;
    let message = wrap(rt.alloc(), own, point, sls, &ANSWER[24..37])?;
    assert_eq!(rt; message.as_slice(), ANSWER);
    Ok(())
}

/// A stream gives no event and this fault, whole and octet by octet.
fn assert_fault(
    rt: &impl Abort,
    alloc: Global,
    stream: &[u8],
    wanted: Option<PortFault>,
) -> Result<(), Fail> {
    let mut events = StampedList::new(alloc);
    assert_eq!(rt; fault_of(alloc, stream, &mut events)?, wanted);
    assert_eq!(rt; fault_by_octets(alloc, stream, &mut events)?, wanted);
    assert!(rt; events.is_empty());
    Ok(())
}

/// Each fault of a first message, one of a second message, and streams without a fault or an event.
#[test]
fn faults_are_the_first_ones(rt: HostRuntime) -> Result<(), Fail> {
    let faults: [(&[u8], PortKind); 9] = [
        (b"\x02", PortKind::Version),
        (b"\x01\x00\x00\x01\x00\x00\x00\x07", PortKind::Length),
        (b"\x01\x00\x00\x01\x00\x02\x00\x01", PortKind::Length),
        (&STREAM[..20], PortKind::End),
        (
            b"\x01\x00\x01\x01\x00\x00\x00\x0b\x02\x10\x00",
            PortKind::Parameter,
        ),
        (
            b"\x01\x00\x01\x01\x00\x00\x00\x0c\x02\x10\x00\x03",
            PortKind::Parameter,
        ),
        (
            b"\x01\x00\x01\x01\x00\x00\x00\x0c\x00\x06\x00\x04",
            PortKind::Missing,
        ),
        (
            b"\x01\x00\x01\x01\x00\x00\x00\x0c\x02\x10\x00\x04",
            PortKind::Short,
        ),
        (
            b"\x01\x00\x01\x01\x00\x00\x00\x18\x02\x10\x00\x10\x00\x00\x40\x00\x00\x00\x00\x64\x03\x00\x00\x05",
            PortKind::Range,
        ),
    ];
    for (stream, kind) in faults {
        assert_fault(
            &rt,
            rt.alloc(),
            stream,
            Some(PortFault { message: 1, kind }),
        )?;
    }
    let second = PortFault {
        message: 2,
        kind: PortKind::End,
    };
    assert_fault(
        &rt,
        rt.alloc(),
        b"\x01\x00\x00\x01\x00\x00\x00\x08\x01\x00",
        Some(second),
    )?;
    assert_fault(&rt, rt.alloc(), b"\x01\x00\x00\x01\x00\x00\x00\x08", None)?;
    assert_fault(&rt, rt.alloc(), b"", None)
}
