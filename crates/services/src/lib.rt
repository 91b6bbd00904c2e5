//! Services: what a replicated machine does with the payloads that the ring has put in order.
//! A service means a state; a payload moves it to the next state and gives a result, and both are fixed by state
//! and payload. Every step can be undone exactly.
#![tactic(auto)]

mod lone;
mod service;
mod slip;
mod wrong;
mod zeros;

pub use lone::{appending_laws, beginning_law};
pub use service::{Service, apply_and_undo};
pub use slip::{NothingToUndo, Slip};
pub use wrong::WrongPayload;
pub use zeros::is_all_zero;
