// The seal of a client's request.
ghost use Rattle.std.specs.Prelude.{◌≡◌, Ok};
ghost use Rattle.counter.specs.Opening.{sealed_by};

use outbox::statements::cover;
use quorum::refusal::Fault;
use records::places::REQUEST_SEAL;
use records::request::Request;
use records::statement::Said;
use seal_box::SealBox;

// The request under the seal that the box gives it.
pub(crate) fn sealed<B: SealBox>(seals: &B, request: Request) -> Result<Request, Fault>
    ensures { result ≡ Ok (sealed_by (B.tag seals.now) request) }
{
    // what the seal covers stands before it
    let mut paper = [0; REQUEST_SEAL];
    let end = cover(Said::Asks(&request), &mut paper)?;
    let seal = seals.seal(&paper[..end]);
    Ok(Request { seal, ..request })
}
