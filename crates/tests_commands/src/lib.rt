//! What requests through the built program can't show: input that comes in pieces, reads and writes that fail, and the clock.
#![tactic(auto)]

#[cfg(test)]
mod batch;
#[cfg(test)]
mod check;
