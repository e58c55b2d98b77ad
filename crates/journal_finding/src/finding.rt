//! What is found of a journal's text.

/// What is wrong in a line.
#[derive(Clone, Copy)]
pub enum FindingKind {
    /// It doesn't stand in a journal's text, or a lane is missing.
    Form,
    /// Its lane doesn't take this event next, or has events left at its end.
    Order,
    /// It names an edition where its event asks for no routing, none where it asks, or one that couldn't be read then.
    Edition,
    /// The answer, the edition that is published or an output isn't what comes of the event.
    Entry,
}

/// The first fault of a text: its line, from 1, and what is wrong there.
#[derive(Clone, Copy)]
pub struct Fault {
    pub line: u32,
    pub kind: FindingKind,
}
