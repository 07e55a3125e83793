//! The crates of what is kept and of the machine: public calls, with ample memory, since no clause says that memory is there.
#![tactic(auto)]

#[cfg(test)]
mod kept;
#[cfg(test)]
mod machine;
#[cfg(test)]
mod templates;
