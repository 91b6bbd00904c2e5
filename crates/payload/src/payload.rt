//! The sixteen bytes that a request carries for the service. Each service has its own layout for them.

#[derive(Clone, Copy, PartialEq, Eq, Debug, Default)]
pub struct Payload {
    pub bytes: [u8; 16],
}
