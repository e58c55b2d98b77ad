//! What is found of a text, and its line.
ghost use Rattle.std.specs.Prelude.{◌≡◌, ◌≢◌, ◌++◌, Err, codes, OnOk, OnErr};
ghost use Rattle.std.specs.Io.KnownBytes.{Appends};
ghost use Rattle.relay_base.specs.Causes.{Rose};
ghost use Rattle.relay_base.specs.Streams.{AppendedPart};
ghost use Rattle.journal_text.specs.Inner.Texts.{Puts};
ghost use Rattle.journal_audit.specs.Audit.{kind_word, finding_text};
ghost use Rattle.journal_audit.specs.Inner.Judging.{told};

use journal_finding::{Fault, FindingKind};
use journal_text::{Text, WriteFault, write_text};
use relay_base::Sink;
use std::alloc::{AllocError, Global};

/// What is found of the text of a journal: it is legal, or this is its first fault, with its line, from 1.
#[derive(Clone, Copy)]
pub enum Finding {
    Legal,
    Illegal { line: u32, kind: FindingKind },
}

/// What is told of a fault, or of none.
pub fn told(fault: Option<Fault>) -> Finding
    ensures { result ≡ told fault }
{
    match fault {
        None => Finding::Legal,
        Some(Fault { line, kind }) => Finding::Illegal { line, kind },
    }
}

/// The word of a kind.
fn kind_word(kind: FindingKind) -> &'static str
    ensures { result.now ≡ kind_word kind }
{
    match kind {
        FindingKind::Form => "form",
        FindingKind::Order => "order",
        FindingKind::Edition => "edition",
        FindingKind::Entry => "entry",
    }
}

/// Appends the line of a finding.
fn put_finding(text: &mut Text, finding: Finding) -> Result<(), AllocError>
    ensures { Puts result text.old text.new (finding_text finding) }
{
    match finding {
        Finding::Legal => text.put("legal\n"),
        Finding::Illegal { line, kind } => {
            text.put("illegal")?;
            text.number(line)?;
            text.word(kind_word(kind))?;
            text.put("\n")
        }
    }
}

/// Writes the line of a finding to a sink. After an error a front of it was written.
pub fn write_finding<K: Sink>(
    alloc: Global,
    finding: Finding,
    out: &mut K,
) -> Result<(), WriteFault>
    ensures ok { OnOk result (Appends (K.held out.old) (K.held out.new) (finding_text finding)) }
    ensures err { OnErr result (AppendedPart (K.held out.old) (K.held out.new)
        (finding_text finding)) }
    ensures fault { result ≡ Err WriteFault.Sink → Rose (K.faults out.old) (K.faults out.new) }
    ensures kept { result ≢ Err WriteFault.Sink → K.faults out.new ≡ K.faults out.old }
{
    let mut text = Text::of(alloc, "")?;
    put_finding(&mut text, finding)?;
    write_text(out, &text)
}
