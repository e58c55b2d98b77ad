//! A unit of data.
use relay_base::Octets;

/// A unit of data of 1 to 255 octets, and whether more of its text follows.
#[derive(Drop)]
pub struct Unit {
    pub more: bool,
    pub body: Octets,
}
