// Reading records from bytes: each reader answers exactly what its definition says of the bytes.
#![tactic(auto)]

mod bodies;
mod certificates;
mod cursor;
mod fields;
pub mod framing;
pub mod reading;
