//! Memory at hand for a thread.
use std::alloc::Global;

/// A piece of memory, in octets: the C library takes a piece of 128 KiB or more from elsewhere.
const PIECE: usize = 65_536;

/// The most pieces that a thread takes.
const MOST_PIECES: usize = 512;

/// Takes so many octets of memory, at most 33,554,432, in pieces, and gives them back, so that the C library has that much at hand for this thread. Else it grows what a
/// thread has by 4 KiB at a time, each time by a call of the kernel for which other threads wait. Nothing is lost where memory is refused.
pub fn take_spare(alloc: Global, octets: usize) {
    let mut pieces: Vec<Vec<u8>> = Vec::new(alloc);
    for _ in 0..(octets / PIECE).min(MOST_PIECES) {
        let Ok(piece) = Vec::with_capacity(alloc, PIECE) else {
            return;
        };
        if pieces.push(piece).is_err() {
            return;
        }
    }
}
