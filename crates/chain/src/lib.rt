// The chain rule of view states and new views.
#![tactic(auto)]

pub mod links;
