// Who sent a record: its sender, and its seals in the order in which they are tried.
#![tactic(auto)]

pub mod admitting;
mod asking;
mod certificates;
mod states;
