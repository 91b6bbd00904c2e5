// Who may sign: for each number that is known, a secret, as a key. There are places for ten stations and sixteen clients.
#![tactic(auto)]

pub mod own;
mod row;
pub mod secret_box;
mod table;
