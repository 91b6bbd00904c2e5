//! What applying a payload leaves for undoing it.

/// Three plain numbers. Each service says for itself what they tell; nothing keeps a caller from handing in others.
/// They are no type of the service's own, since a slip is kept and handed back by callers that know no service, and
/// one that another service wrote is taken too. The default is three zeros.
#[derive(Clone, Copy, Debug, PartialEq, Eq, Default)]
pub struct Slip {
    pub first: u64,
    pub second: u64,
    pub third: u64,
}

/// A slip that tells a service nothing to undo.
#[derive(Clone, Copy, Debug, PartialEq, Eq)]
pub struct NothingToUndo;
