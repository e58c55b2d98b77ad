//! What each command does, up to the reason why it stops.
ghost use Rattle.std.specs.Prelude.{◌≡◌, ◌≤◌, ◌⊎◌, ℕ, IfOk, IfErr, OnOk, OnErr, Ok, Some, None, map, string_bytes};
ghost use Rattle.relay_base.specs.declared.limits.TheConstants.{MOST_GENERATED_LINES};
ghost use Rattle.journal_text.specs.Book.{IsEmpty};
ghost use Rattle.right_book.specs.Right.{IsRight};
ghost use Rattle.chain_text.specs.Print.{run_text};
ghost use Rattle.command_words.specs.Commands.{command_in};
ghost use Rattle.command_words.specs.declared.command.Command.TheVariants.{Generate};
ghost use Rattle.capture_generator.specs.Generator.{generated_capture};
ghost use Rattle.chain_form.specs.Chain.{IsInput};
ghost use Rattle.capture_input.specs.Input.{bytes, IsRunnable, IsAuditable, IsReady};
ghost use Rattle.capture_input.specs.declared.input.Input.TheVariants as input;
ghost use Rattle.book_output.specs.Report.{report_text};
ghost use Rattle.journal_audit.specs.Audit.{IsFinding, finding_text};
ghost use Rattle.relay_call.specs.Outcome.{GivesAs, Wrote, WrotePart, WroteAll, Filled, FilledBy, IsDone, finding_status};
ghost use Rattle.relay_call.specs.Inner.Reports.{report_of};
ghost use Rattle.relay_call.specs.Inner.Stops.{RoseFor, LacksInput, Judged, StoppedJudging, StoppedLate, Stopped};

use book_output::{Report, write_report};
use capture_form::{Book, Capture, PhaseList};
use capture_generator::generated;
use capture_input::{AuditInput, Form, Input, Stop, take_input};
use chain_form::ChainInput;
use chain_text::run_chain;
use command_words::{Command, command_of};
use journal_audit::{Finding, judge, write_finding};
use node_engine::run_owned;
use node_head::Head;
use relay_base::{Pace, Sink, Source};
use std::alloc::Global;
use std::sync::Wait;
use std::thread::Threads;

/// The capture that is made of a number and a count of lines.
fn made(alloc: Global, number: u32, lines: u32) -> Result<Input, Stop>
    requires { lines ≤ MOST_GENERATED_LINES }
    ensures value { IfOk result (λ given. given ≡ input.Capture (generated_capture number lines)) }
    ensures ready { IfOk result IsReady }
    ensures stopped { IfErr result (λ stop. stop ≡ Stop.Memory) }
{
    match generated(alloc, number, lines) {
        Ok(capture) => Ok(Input::Capture(capture)),
        Err(_) => Err(Stop::Memory),
    }
}

/// The input of a command: `gen` makes it, and the others read it.
fn input_of<R: Threads + Sync, S: Source>(
    rt: &R,
    alloc: Global,
    command: Command,
    source: &mut S,
) -> Result<Input, Stop>
    requires { (number lines : ℕ) → command ≡ Generate number lines → lines ≤ MOST_GENERATED_LINES }
    ensures ok { let read = bytes (S.left source.old) (S.left source.new) in
        IfOk result (λ given. GivesAs command read (λ parts. parts ≡ Ok given)) }
    ensures ready { IfOk result IsReady }
    ensures refused { let read = bytes (S.left source.old) (S.left source.new) in
        IfErr result (LacksInput (Some command) read) }
    ensures made { (number lines : ℕ) → command ≡ Generate number lines
        → S.left source.new ≡ S.left source.old }
    ensures faults { RoseFor Stop.ReadFault result (S.faults source.old) (S.faults source.new) }
{
    match command {
        Command::Run => take_input(rt, alloc, Form::Lines, source),
        Command::Generate { number, lines } => made(alloc, number, lines),
        Command::Stream => take_input(rt, alloc, Form::Stream, source),
        Command::Frames => take_input(rt, alloc, Form::Stream, source),
        Command::Chain => take_input(rt, alloc, Form::Steps, source),
        Command::Audit => take_input(rt, alloc, Form::Audited, source),
    }
}

/// Runs the phases of a capture into the book.
fn fill<R: Threads + Wait + Sync, P: Pace>(
    rt: &R,
    alloc: Global,
    head: &Head,
    phases: PhaseList,
    pace: &P,
    book: &mut Book,
) -> Result<(), Stop>
    requires ready { IsRunnable (record { head = head.now; phases = phases }) }
    requires empty { IsEmpty book.old }
    ensures ok { OnOk result (IsRight head.now phases book.new) }
    ensures stopped { IfErr result (λ stop. (stop ≡ Stop.Memory) × IsEmpty book.new) }
{
    match run_owned(rt, alloc, head, phases, pace, book) {
        Ok(()) => Ok(()),
        Err(_) => Err(Stop::Memory),
    }
}

/// What a command writes of the book of a head's node.
fn report_of(command: Command, head: &Head) -> Report
    ensures { result ≡ report_of command head.now }
{
    match command {
        Command::Generate { lines, .. } => Report::Counts { lines },
        Command::Frames => Report::Frames { own: head.point },
        Command::Run | Command::Stream | Command::Chain | Command::Audit => Report::Print,
    }
}

/// Writes a report of the book.
fn write<R: Threads + Sync, K: Sink>(
    rt: &R,
    alloc: Global,
    report: Report,
    book: &Book,
    out: &mut K,
) -> Result<(), Stop>
    ensures ok { let written = bytes (K.held out.old) (K.held out.new) in
        OnOk result (Wrote written (report_text report book.now)) }
    ensures err { let written = bytes (K.held out.old) (K.held out.new) in
        OnErr result (WrotePart written (report_text report book.now)) }
    ensures why { IfErr result (λ stop. (stop ≡ Stop.WriteFault) ⊎ (stop ≡ Stop.Memory)) }
    ensures faults { RoseFor Stop.WriteFault result (K.faults out.old) (K.faults out.new) }
{
    write_report(rt, alloc, report, book, out)?;
    Ok(())
}

/// Runs a capture into the book, and writes what a command writes of it.
fn serve_capture<R: Threads + Wait + Sync, K: Sink, P: Pace>(
    rt: &R,
    alloc: Global,
    command: Command,
    capture: Capture,
    out: &mut K,
    pace: &P,
    book: &mut Book,
) -> Result<(), Stop>
    requires ready { IsRunnable capture }
    requires empty { IsEmpty book.old }
    ensures ok { let written = bytes (K.held out.old) (K.held out.new) in
        OnOk result (Filled (WroteAll written 0) command (input.Capture capture) book.new) }
    ensures stopped { let written = bytes (K.held out.old) (K.held out.new) in
        IfErr result (StoppedLate command written (input.Capture capture) book.new) }
    ensures faults { RoseFor Stop.WriteFault result (K.faults out.old) (K.faults out.new) }
{
    let Capture { head, phases } = capture;
    let report = report_of(command, &head);
    fill(rt, alloc, &head, phases, pace, book)?;
    write(rt, alloc, report, book, out)
}

/// Takes the steps of nodes in a row, and writes what their users are told.
fn serve_chain<K: Sink>(alloc: Global, steps: &ChainInput, out: &mut K) -> Result<(), Stop>
    requires { IsInput steps.now }
    ensures ok { let written = bytes (K.held out.old) (K.held out.new) in
        OnOk result (Wrote written (run_text steps.now)) }
    ensures err { let written = bytes (K.held out.old) (K.held out.new) in
        OnErr result (WrotePart written (run_text steps.now)) }
    ensures why { IfErr result (λ stop. (stop ≡ Stop.WriteFault) ⊎ (stop ≡ Stop.Memory)) }
    ensures faults { RoseFor Stop.WriteFault result (K.faults out.old) (K.faults out.new) }
{
    run_chain(alloc, steps, out)?;
    Ok(())
}

/// What is found of the text of a journal.
fn finding_in(alloc: Global, audited: &AuditInput) -> Result<Finding, Stop>
    requires { IsAuditable audited.now }
    ensures found { let capture = audited.now.capture in
        IfOk result (IsFinding capture.head capture.phases audited.now.text) }
    ensures stopped { IfErr result (λ stop. stop ≡ Stop.Memory) }
{
    match judge(alloc, &audited.capture, audited.text.as_slice()) {
        Ok(finding) => Ok(finding),
        Err(_) => Err(Stop::Memory),
    }
}

/// Writes the line of a finding.
fn write_line<K: Sink>(alloc: Global, finding: Finding, out: &mut K) -> Result<(), Stop>
    ensures ok { let written = bytes (K.held out.old) (K.held out.new) in
        OnOk result (Wrote written (finding_text finding)) }
    ensures err { let written = bytes (K.held out.old) (K.held out.new) in
        OnErr result (WrotePart written (finding_text finding)) }
    ensures why { IfErr result (λ stop. (stop ≡ Stop.WriteFault) ⊎ (stop ≡ Stop.Memory)) }
    ensures faults { RoseFor Stop.WriteFault result (K.faults out.old) (K.faults out.new) }
{
    write_finding(alloc, finding, out)?;
    Ok(())
}

/// How a command ends that wrote a finding.
fn ending(finding: Finding) -> Result<(), Stop>
    ensures ok { OnOk result (finding_status finding ≡ 0) }
    ensures stopped { IfErr result (λ stop.
        (stop ≡ Stop.Illegal) × (finding_status finding ≡ 9)) }
{
    match finding {
        Finding::Legal => Ok(()),
        Finding::Illegal { .. } => Err(Stop::Illegal),
    }
}

/// Judges the text of a journal beside its capture, and writes what is found.
fn serve_audit<K: Sink>(alloc: Global, audited: &AuditInput, out: &mut K) -> Result<(), Stop>
    requires { IsAuditable audited.now }
    ensures ok { let written = bytes (K.held out.old) (K.held out.new) in
        OnOk result (Judged (WroteAll written 0) audited.now) }
    ensures stopped { let written = bytes (K.held out.old) (K.held out.new) in
        IfErr result (StoppedJudging written audited.now) }
    ensures faults { RoseFor Stop.WriteFault result (K.faults out.old) (K.faults out.new) }
{
    let finding = finding_in(alloc, audited)?;
    write_line(alloc, finding, out)?;
    ending(finding)
}

/// Does a command with its input, and writes what it writes.
fn serve_input<R: Threads + Wait + Sync, K: Sink, P: Pace>(
    rt: &R,
    alloc: Global,
    command: Command,
    given: Input,
    out: &mut K,
    pace: &P,
    book: &mut Book,
) -> Result<(), Stop>
    requires ready { IsReady given }
    requires empty { IsEmpty book.old }
    ensures ok { let written = bytes (K.held out.old) (K.held out.new) in
        OnOk result (Filled (WroteAll written 0) command given book.new) }
    ensures stopped { let written = bytes (K.held out.old) (K.held out.new) in
        IfErr result (StoppedLate command written given book.new) }
    ensures faults { RoseFor Stop.WriteFault result (K.faults out.old) (K.faults out.new) }
{
    match given {
        Input::Capture(capture) => serve_capture(rt, alloc, command, capture, out, pace, book),
        Input::Chain(steps) => serve_chain(alloc, &steps, out),
        Input::Audited(audited) => serve_audit(alloc, &audited, out),
    }
}

/// Does a command: takes its input, and does with it what the command is for.
fn perform<R: Threads + Wait + Sync, S: Source, K: Sink, P: Pace>(
    rt: &R,
    alloc: Global,
    command: Command,
    source: &mut S,
    out: &mut K,
    pace: &P,
    book: &mut Book,
) -> Result<(), Stop>
    requires lines { (number lines : ℕ) → command ≡ Generate number lines
        → lines ≤ MOST_GENERATED_LINES }
    requires empty { IsEmpty book.old }
    ensures ok { let read = bytes (S.left source.old) (S.left source.new) in
        let written = bytes (K.held out.old) (K.held out.new) in
        OnOk result (FilledBy (WroteAll written 0) command read book.new) }
    ensures stopped { let read = bytes (S.left source.old) (S.left source.new) in
        let written = bytes (K.held out.old) (K.held out.new) in
        IfErr result (Stopped (Some command) read written book.new) }
    ensures made { (number lines : ℕ) → command ≡ Generate number lines
        → S.left source.new ≡ S.left source.old }
    ensures source { RoseFor Stop.ReadFault result (S.faults source.old) (S.faults source.new) }
    ensures sink { RoseFor Stop.WriteFault result (K.faults out.old) (K.faults out.new) }
{
    let given = input_of(rt, alloc, command, source)?;
    serve_input(rt, alloc, command, given, out, pace, book)
}

/// Does what the words ask.
pub fn serve<R: Threads + Wait + Sync, S: Source, K: Sink, P: Pace>(
    rt: &R,
    alloc: Global,
    words: &[String],
    source: &mut S,
    out: &mut K,
    pace: &P,
    book: &mut Book,
) -> Result<(), Stop>
    requires { IsEmpty book.old }
    ensures ok { let command = command_in (map string_bytes words.now) in
        let read = bytes (S.left source.old) (S.left source.new) in
        let written = bytes (K.held out.old) (K.held out.new) in
        OnOk result (IsDone command read written book.new 0) }
    ensures stopped { let command = command_in (map string_bytes words.now) in
        let read = bytes (S.left source.old) (S.left source.new) in
        let written = bytes (K.held out.old) (K.held out.new) in
        IfErr result (Stopped command read written book.new) }
    ensures words { IfErr result (λ stop. command_in (map string_bytes words.now) ≡ None
        → (stop ≡ Stop.Usage) ⊎ (stop ≡ Stop.Memory)) }
    ensures made { (number lines : ℕ)
        → command_in (map string_bytes words.now) ≡ Some (Generate number lines)
        → S.left source.new ≡ S.left source.old }
    ensures source { RoseFor Stop.ReadFault result (S.faults source.old) (S.faults source.new) }
    ensures sink { RoseFor Stop.WriteFault result (K.faults out.old) (K.faults out.new) }
{
    match command_of(alloc, words) {
        Ok(Some(command)) => perform(rt, alloc, command, source, out, pace, book),
        Ok(None) => Err(Stop::Usage),
        Err(_) => Err(Stop::Memory),
    }
}
