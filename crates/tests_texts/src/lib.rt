//! The crates of texts, documents and times: public calls, with ample memory, since no clause says that memory is there.
#![tactic(auto)]

#[cfg(test)]
mod doc;
#[cfg(test)]
mod fields;
#[cfg(test)]
mod names;
#[cfg(test)]
mod time;
#[cfg(test)]
mod wire;
