// One seal tried.
ghost use Rattle.std.specs.Prelude.{◌≡◌, ◌≤◌, [], ◌∷◌, length};
ghost use Rattle.quorum.specs.Limits.{longest_statement};
ghost use Rattle.records.specs.Said.{meaning_of};
ghost use Rattle.records.specs.Statements.{said_bytes};
ghost use Rattle.seals.specs.Tried.{tried, first_false};

use outbox::statements::cover;
use quorum::limits::LONGEST_STATEMENT;
use quorum::refusal::Fault;
use records::statement::Said;
use seal_box::SealBox;

// Whether a tag is the signer's genuine seal of a statement.
fn ask<B: SealBox>(seals: &B, signer: u16, said: Said<'_>, tag: u64) -> bool
    requires { length (said_bytes (meaning_of said)) ≤ longest_statement }
    ensures { result ≡ B.genuine seals.now signer (said_bytes (meaning_of said.entry)) tag }
{
    let mut statement = [0; LONGEST_STATEMENT];
    match cover(said, &mut statement) {
        Ok(end) => seals.ask(signer, &statement[0..end], tag),
        Err(_) => false,
    }
}

// The seal at a place, or the refusal that points at it.
pub(crate) fn try_seal<B: SealBox>(
    seals: &B,
    signer: u16,
    said: Said<'_>,
    tag: u64,
    place: usize,
) -> Result<(), Fault>
    requires { length (said_bytes (meaning_of said)) ≤ longest_statement }
    ensures { result ≡ first_false (B.genuine seals.now) (tried signer (meaning_of said.entry) tag place ∷ []) }
{
    if !ask(seals, signer, said, tag) {
        return Err(Fault::NotGenuine(place));
    }
    Ok(())
}
