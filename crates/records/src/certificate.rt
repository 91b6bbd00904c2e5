// A certificate: one proposal with the seals of a quorum over it, by station.
use crate::request::Proposal;

#[derive(Clone, Copy, PartialEq, Eq, Debug, Default)]
pub struct Certificate {
    pub proposal: Proposal,
    // the seal of station i, where it is among the quorum
    pub seals: [Option<u64>; 10],
}

impl Certificate {
    // what fills a place that holds no certificate
    pub const BLANK: Certificate = Certificate {
        proposal: Proposal::BLANK,
        seals: [None; 10],
    };
}

pub mod sizes;
