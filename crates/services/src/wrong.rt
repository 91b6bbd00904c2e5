//! What a service says of a payload that it cannot read.

/// The bytes have no place in the service's layout.
#[derive(Clone, Copy, Debug, PartialEq, Eq)]
pub struct WrongPayload;
