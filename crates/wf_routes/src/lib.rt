//! What a request asks for: the table of paths and methods, the parameters of a path, and the query
//! behind it.
#![tactic(auto)]

pub mod faults;
pub mod laws;
pub mod query;
pub mod routes;
pub mod table;
pub mod target;

pub use faults::{NoMemory, Unrouted};
pub use query::Query;
pub use routes::Routes;
pub use table::{Call, Method, Path, Route, Row};
pub use target::{decode_parameter, segment, split_target};
