//! What no run of the program reaches: the print of a book in memory, and calls that the program makes in another form.
#![tactic(auto)]

#[cfg(test)]
mod journals;
#[cfg(test)]
mod lanes;
#[cfg(test)]
mod timers;
