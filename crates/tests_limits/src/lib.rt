//! The machine under small limits, which the built program can't be given.
#![tactic(auto)]

#[cfg(test)]
mod limits;
