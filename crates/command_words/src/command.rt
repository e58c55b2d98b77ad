//! What the words ask for.

/// A command.
#[derive(Clone, Copy)]
pub enum Command {
    /// Run the capture that is read.
    Run,
    /// Run the capture that is made of a number and a count of lines, 1 to 199,000.
    Generate { number: u32, lines: u32 },
    /// Run the M3UA messages that are read.
    Stream,
    /// Run the M3UA messages that are read, and write those that the node sends.
    Frames,
    /// Take the steps of nodes in a row that are read.
    Chain,
    /// Judge the text of a journal that is read behind its capture.
    Audit,
}
