// What informs say together: which of them are alike, and whether a quorum of stations is.
#![tactic(auto)]

pub mod agreed;
pub mod alike;
