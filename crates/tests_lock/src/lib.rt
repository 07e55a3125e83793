//! The keeper, the lock and the counter over it: their public calls, each with ample memory, since no clause says that memory is there.
#![tactic(auto)]

#[cfg(test)]
mod counter;
#[cfg(test)]
mod keeper;
#[cfg(test)]
mod lock;
