//! The spares store: 32 stocks, one for each part, as a service of the ring.
#![tactic(auto)]

mod former;
mod movement;
mod refusal;
mod rules;
mod service;
mod store;

pub use rules::store_rules;
pub use store::SparesStore;

#[cfg(test)]
mod tests;
