//! Callers in threads: some that take turns at a lane, and some that look at routing data while they are published.
#![tactic(auto)]

#[cfg(test)]
mod looks;
#[cfg(test)]
mod turns;
