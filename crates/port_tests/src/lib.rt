//! A port for M3UA messages: worked streams, and each public function once.
#![tactic(auto)]

#[cfg(test)]
mod streams;
