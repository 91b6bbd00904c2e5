//! What a request asks of a service.
#![tactic(auto)]

mod payload;

pub use payload::Payload;
