//! Plans: public calls, with ample memory, since no clause says that memory is there.
#![tactic(auto)]

#[cfg(test)]
mod plans;
