// The lowest layer: what a refusal is, the figures of a ring, and what quorums promise.
#![tactic(auto)]

ghost use Rattle.quorum.specs.Sets.{QuorumsShare};

pub mod figures;
pub mod limits;
pub mod refusal;

// Any two quorums of a ring share a station that is not bad, for every number of stations and every set of at most f bad
// ones.
pub fn quorums_share()
    ensures { QuorumsShare }
{}
