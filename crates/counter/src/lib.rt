// A client's side of the ring: it asks one request at a time, hears what stations tell of it, and closes on a proof of
// execution.
#![tactic(auto)]

pub mod calls;
pub mod parts;
mod sealing;
pub mod state;
