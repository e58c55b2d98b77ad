//! The input of a command.
ghost use Rattle.std.specs.Prelude.{◌≡◌, ◌≢◌, IfOk, IfErr, Ok, Err};
ghost use Rattle.relay_base.specs.Causes.{Rose};
ghost use Rattle.capture_input.specs.Input.{bytes, input_of, IsReady, ReadAs};
ghost use Rattle.capture_input.specs.Stops.{Reads, TakesNone, read_stop};

use crate::fault::InputFault;
use crate::reading::{AuditInput, read_audit};
use crate::stop::{Stop, refusal};
use capture_form::{Capture, read_capture};
use capture_pieces::{PieceFault, take_capture};
use chain_form::{ChainInput, read_chain};
use m3ua_capture::read_stream;
use relay_base::limits::MOST_BYTES;
use relay_base::{ReadAllFault, Source, read_all};
use std::alloc::Global;
use std::thread::Threads;

/// What an input is made of.
#[derive(Clone, Copy)]
pub enum Form {
    /// A head, and lines.
    Lines,
    /// A head, and a stream of M3UA messages.
    Stream,
    /// A number of nodes, and their steps.
    Steps,
    /// A head and lines, and the text of a journal behind them.
    Audited,
}

/// What an input states.
#[derive(Drop)]
pub enum Input {
    /// What a node hears.
    Capture(Capture),
    /// What nodes in a row do.
    Chain(ChainInput),
    /// What a node hears, and the text of a journal that is said to be of it.
    Audited(AuditInput),
}

/// What an input states.
fn input_in(alloc: Global, form: Form, bytes: &[u8]) -> Result<Input, InputFault>
    ensures value { Reads result (input_of form bytes.now) }
    ensures ready { IfOk result IsReady }
{
    match form {
        Form::Lines => Ok(Input::Capture(read_capture(alloc, bytes)?)),
        Form::Stream => Ok(Input::Capture(read_stream(alloc, bytes)?)),
        Form::Steps => Ok(Input::Chain(read_chain(alloc, bytes)?)),
        Form::Audited => Ok(Input::Audited(read_audit(alloc, bytes)?)),
    }
}

/// Why no bytes were taken.
fn read_stop(fault: ReadAllFault) -> Stop
    ensures { result ≡ read_stop fault }
{
    match fault {
        ReadAllFault::TooLong => Stop::Bytes,
        ReadAllFault::Fault => Stop::ReadFault,
        ReadAllFault::Memory => Stop::Memory,
    }
}

/// What all bytes of a source state.
fn take_whole<S: Source>(alloc: Global, form: Form, source: &mut S) -> Result<Input, Stop>
    ensures ok { let read = bytes (S.left source.old) (S.left source.new) in
        IfOk result (λ input. ReadAs form read (λ stated. stated ≡ Ok input)) }
    ensures ready { IfOk result IsReady }
    ensures refused { let read = bytes (S.left source.old) (S.left source.new) in
        IfErr result (TakesNone form read) }
    ensures fault { result ≡ Err Stop.ReadFault → Rose (S.faults source.old) (S.faults source.new) }
    ensures kept { result ≢ Err Stop.ReadFault → S.faults source.new ≡ S.faults source.old }
{
    let bytes = match read_all(alloc, source, MOST_BYTES) {
        Ok(bytes) => bytes,
        Err(fault) => return Err(read_stop(fault)),
    };
    match input_in(alloc, form, bytes.as_slice()) {
        Ok(input) => Ok(input),
        Err(fault) => Err(refusal(alloc, fault)),
    }
}

/// What the lines of a capture state, which are read in threads, and while others are still to come.
fn take_lines<R: Threads + Sync, S: Source>(
    rt: &R,
    alloc: Global,
    source: &mut S,
) -> Result<Input, Stop>
    ensures ok { let read = bytes (S.left source.old) (S.left source.new) in
        IfOk result (λ input. ReadAs Form.Lines read (λ stated. stated ≡ Ok input)) }
    ensures ready { IfOk result IsReady }
    ensures refused { let read = bytes (S.left source.old) (S.left source.new) in
        IfErr result (TakesNone Form.Lines read) }
    ensures fault { result ≡ Err Stop.ReadFault → Rose (S.faults source.old) (S.faults source.new) }
    ensures kept { result ≢ Err Stop.ReadFault → S.faults source.new ≡ S.faults source.old }
{
    match take_capture(rt, alloc, source) {
        Ok(capture) => Ok(Input::Capture(capture)),
        Err(PieceFault::Capture(fault)) => Err(refusal(alloc, InputFault::from(fault))),
        Err(PieceFault::Read(fault)) => Err(read_stop(fault)),
    }
}

/// What a source states, which is read to its end. The lines of a capture are read in threads.
pub fn take_input<R: Threads + Sync, S: Source>(
    rt: &R,
    alloc: Global,
    form: Form,
    source: &mut S,
) -> Result<Input, Stop>
    ensures ok { let read = bytes (S.left source.old) (S.left source.new) in
        IfOk result (λ input. ReadAs form read (λ stated. stated ≡ Ok input)) }
    ensures ready { IfOk result IsReady }
    ensures refused { let read = bytes (S.left source.old) (S.left source.new) in
        IfErr result (TakesNone form read) }
    ensures fault { result ≡ Err Stop.ReadFault → Rose (S.faults source.old) (S.faults source.new) }
    ensures kept { result ≢ Err Stop.ReadFault → S.faults source.new ≡ S.faults source.old }
{
    match form {
        Form::Lines => take_lines(rt, alloc, source),
        Form::Stream | Form::Steps | Form::Audited => take_whole(alloc, form, source),
    }
}
