//! The constants book: up to 64 instruments by serial, as a service of the ring. Entries stand in any free place.
#![tactic(auto)]

mod book;
mod changes;
mod places;
mod service;

pub use book::ConstantsBook;

#[cfg(test)]
mod tests;
