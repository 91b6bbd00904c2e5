//! Instrument constants: what a payload asks of a book of them, what the book answers, what an entry is, and what any
//! such book means, however it keeps its entries.
#![tactic(auto)]

mod command;
mod entries;
mod entry;
mod former;
mod refusal;
mod rules;

pub use command::Command;
pub use entry::Entry;
pub use former::Former;
pub use refusal::{DONE, Refusal};
pub use rules::book_rules;
