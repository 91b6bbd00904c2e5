// The records of the ring, as types.
#![tactic(auto)]

pub mod arrivals;
pub mod certificate;
pub mod few;
pub mod marks;
pub mod places;
pub mod request;
pub mod statement;
