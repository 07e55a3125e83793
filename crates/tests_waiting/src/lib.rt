//! What waits and what is due: the calls of the fast structures beside those of the plain ones.
#![tactic(auto)]

#[cfg(test)]
mod limits;
#[cfg(test)]
mod queue;
#[cfg(test)]
mod sorted;
#[cfg(test)]
mod timers;
