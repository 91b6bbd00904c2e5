// Writing records into a tray.
#![tactic(auto)]

mod certificates;
mod numbers;
mod pen;
mod requests;
mod said;
pub mod sending;
pub mod statements;
pub mod tray;
