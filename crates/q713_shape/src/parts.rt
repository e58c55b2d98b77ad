//! The parts of a message.

/// The values of a message's parameters, in the order of its shape: the fixed part, the variable parameters and the
/// optional ones, with None at each place past the shape's names.
#[derive(Clone, Copy)]
pub struct Parts<'a, const F: usize, const V: usize> {
    pub fixed: [u8; F],
    pub vars: [&'a [u8]; 3],
    pub options: [Option<&'a [u8]>; 5],
}
