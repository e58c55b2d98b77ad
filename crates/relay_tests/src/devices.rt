//! Devices of few octets a call, and devices that fail at each of their calls.

use crate::running::{Device, SOUND, assert_left, call};
use std::test::Fail;

/// The head with own point 100 and user 8, and a UDT for that user.
const UNIT: &[u8] = b"point = 100\nusers = [8]\n%%\nm 1 200 5 090003050702420802420601aa\n";

const PRINTED: &[u8] =
    b"= control\n= conn 0\n= data 0\n1.1.4 e0 local 8\n < 8 unit 0 4208 4206 aa\n";

/// The same with the print behind it, and with one of another edition.
const LEGAL: &[u8] =
    b"point = 100\nusers = [8]\n%%\nm 1 200 5 090003050702420802420601aa\n%%%\n= control\n= conn 0\n= data 0\n1.1.4 e0 local 8\n < 8 unit 0 4208 4206 aa\n";

const ILLEGAL: &[u8] =
    b"point = 100\nusers = [8]\n%%\nm 1 200 5 090003050702420802420601aa\n%%%\n= control\n= conn 0\n= data 0\n1.1.4 e1 local 8\n < 8 unit 0 4208 4206 aa\n";

/// The same head, and from point 200 to point 100 in an M3UA message a UDT for subsystem 9, with return on error.
const STREAM: &[u8] =
    b"point = 100\nusers = [8]\n%%\n\x01\x00\x01\x01\x00\x00\x00\x28\x02\x10\x00\x1d\x00\x00\x00\xc8\x00\x00\x00\x64\x03\x00\x00\x05\x09\x80\x03\x05\x07\x02\x42\x09\x02\x42\x06\x01\xaa\x00\x00\x00";

const STREAM_PRINTED: &[u8] =
    b"= control\n= conn 0\n= data 0\n1.1.1 e0 no unequipped\n > 200 5 0a0403050702420602420901aa\n";

/// The UDTS that comes back, from point 100 to point 200.
const RETURNED: &[u8] =
    b"\x01\x00\x01\x01\x00\x00\x00\x28\x02\x10\x00\x1d\x00\x00\x00\x64\x00\x00\x00\xc8\x03\x00\x00\x05\x0a\x04\x03\x05\x07\x02\x42\x06\x02\x42\x09\x01\xaa\x00\x00\x00";

/// Each command over devices of seven octets a call: its status, its print, its notes, and how many data lanes the book has then.
#[test]
fn commands(rt: HostRuntime) -> Result<(), Fail> {
    let alloc = rt.alloc();
    let cases: [(&[&str], &[u8], u8, &[u8], &[u8], usize); 9] = [
        (&["run"], UNIT, 0, PRINTED, b"", 1),
        (
            &["gen", "1", "1"],
            b"",
            0,
            b"lines 1 entries 1 sent 0 told 1 lost 0\n",
            b"",
            4,
        ),
        (&["m3ua"], STREAM, 0, STREAM_PRINTED, b"", 1),
        (&["m3ua", "frames"], STREAM, 0, RETURNED, b"", 1),
        (
            &["chain"],
            b"nodes 2\nd 1 f\n",
            0,
            b"2 1 none\nwaiting 0\n",
            b"",
            0,
        ),
        (&["audit"], LEGAL, 0, b"legal\n", b"", 0),
        (&["audit"], ILLEGAL, 9, b"illegal 4 edition\n", b"", 0),
        (
            &["run"],
            b"users = [8]\n%%\n",
            2,
            b"",
            b"head missing point\n",
            0,
        ),
        (&["run", "x"], UNIT, 1, b"", b"usage\n", 0),
    ];
    for (words, text, status, out, notes, lanes) in cases {
        let ran = call(&rt, alloc, words, text, [SOUND; 3])?;
        assert_left(&rt, &ran, status, out, notes);
        assert_eq!(rt; ran.lanes, lanes);
    }
    Ok(())
}

/// A source that fails at each of its calls.
#[test]
fn failing_sources(rt: HostRuntime) -> Result<(), Fail> {
    let alloc = rt.alloc();
    for (word, text) in [("run", UNIT), ("audit", LEGAL), ("m3ua", STREAM)] {
        for before in 0..=text.len() {
            let fails = (before as u64).saturating_add(1);
            let source = Device { most: 1, fails };
            let ran = call(&rt, alloc, &[word], text, [source, SOUND, SOUND])?;
            assert_left(&rt, &ran, 5, b"", b"read fault\n");
            assert_eq!(rt; ran.lanes, 0);
        }
    }
    Ok(())
}

/// A sink that fails at each of its calls: where a print is written, where it is told what is found of a text, and where a part of the
/// M3UA messages was taken.
#[test]
fn failing_sinks(rt: HostRuntime) -> Result<(), Fail> {
    let alloc = rt.alloc();
    let cases: [(&[&str], &[u8], &[u8], usize, u64, usize); 3] = [
        (&["run"], UNIT, PRINTED, 10, 7, 1),
        (&["audit"], LEGAL, b"legal\n", 2, 3, 0),
        (&["m3ua", "frames"], STREAM, RETURNED, 10, 4, 1),
    ];
    for (words, text, print, most, calls, lanes) in cases {
        for fails in 1..=calls {
            let sink = Device { most, fails };
            let ran = call(&rt, alloc, words, text, [SOUND, sink, SOUND])?;
            let written = most.saturating_mul(fails as usize - 1).min(print.len());
            assert_left(&rt, &ran, 6, &print[..written], b"write fault\n");
            assert_eq!(rt; ran.lanes, lanes);
        }
    }
    Ok(())
}

/// The status of a refused line stands where the notes fail, too.
#[test]
fn failing_notes(rt: HostRuntime) -> Result<(), Fail> {
    let notes = Device { most: 7, fails: 1 };
    let text = b"point = 1\n%%\ns 8 out\n";
    let ran = call(&rt, rt.alloc(), &["run"], text, [SOUND, SOUND, notes])?;
    assert_left(&rt, &ran, 3, b"", b"");
    Ok(())
}
