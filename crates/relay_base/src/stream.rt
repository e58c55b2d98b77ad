//! Whole streams: all that a source gives, and all that a sink is to take.
ghost use Rattle.std.specs.Prelude.{◌≡◌, ◌≢◌, Err, ◌≤◌, ◌+◌, IfOk, OnOk, OnErr};
ghost use Rattle.std.specs.Io.KnownBytes.{Appends, IsAtEnd};
ghost use Rattle.relay_base.specs.Causes.{HasCause, Rose};
ghost use Rattle.relay_base.specs.Streams.{ReadWhole, TookMore, TookWithin, AppendedPart};

use crate::errors::{Failed, ReadAllFault};
use crate::limits::MOST_BYTES;
use crate::octets::Octets;
use crate::outside::{Sink, Source};
use std::alloc::Global;

/// How many bytes one reading asks for.
const PIECE: usize = 65_536;

/// All the bytes up to the end.
///
/// `TooLong` comes exactly where one byte more than `most` was taken, `Fault` only where the source failed in this call.
pub fn read_all<S: Source>(
    alloc: Global,
    source: &mut S,
    most: usize,
) -> Result<Octets, ReadAllFault>
    requires { most ≤ MOST_BYTES }
    ensures ok { IfOk result (ReadWhole (S.left source.old) (S.left source.new) most) }
    ensures too_long { result ≡ Err ReadAllFault.TooLong
        → TookMore (S.left source.old) (S.left source.new) most }
    ensures fault { result ≡ Err ReadAllFault.Fault
        → Rose (S.faults source.old) (S.faults source.new) }
    ensures within { result ≡ Err ReadAllFault.Fault
        → TookWithin (S.left source.old) (S.left source.new) most }
    ensures kept { result ≢ Err ReadAllFault.Fault → S.faults source.new ≡ S.faults source.old }
{
    let mut bytes = Octets::new(alloc);
    let mut buf = [0u8; PIECE];
    while bytes.len() <= most {
        let want = buf.len().min(most + 1 - bytes.len());
        let count = source.read(&mut buf[..want])?;
        if count == 0 {
            return Ok(bytes);
        }
        bytes.extend(&buf[..count])?;
    }
    Err(ReadAllFault::TooLong)
}

/// Writes all the bytes. After a failure of the sink, which alone is an error, a front of them was written. It takes no memory.
pub fn write_all<K: Sink>(sink: &mut K, bytes: &[u8]) -> Result<(), Failed>
    ensures ok { OnOk result (Appends (K.held sink.old) (K.held sink.new) bytes.now) }
    ensures err { OnErr result (AppendedPart (K.held sink.old) (K.held sink.new) bytes.now) }
    ensures cause { HasCause (K.faults sink.old) (K.faults sink.new) result }
{
    let mut at = 0;
    while at < bytes.len() {
        let count = sink.write(&bytes[at..])?;
        at += count;
    }
    Ok(())
}
