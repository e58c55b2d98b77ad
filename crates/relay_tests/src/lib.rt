//! Calls over memory, where a run of the program can't show it: devices of few octets a call, devices that fail, links that are held, and captures that are lent.
#![tactic(auto)]

#[cfg(test)]
mod devices;
#[cfg(test)]
mod lent;
#[cfg(test)]
mod paces;
#[cfg(test)]
mod running;
