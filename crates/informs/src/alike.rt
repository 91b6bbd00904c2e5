// Which requests are the same, and which informs are alike.
ghost use Rattle.std.specs.Prelude.{◌≡◌};
ghost use Rattle.informs.specs.Alike.{same_request, alike};
ghost use Rattle.informs.specs.Sameness.{alike_itself, alike_back, alike_on};

use records::arrivals::Inform;
use records::request::Request;
use tally::Word;

// Are two requests the same in every byte, the client's seal too?
pub fn same_request(a: &Request, b: &Request) -> bool
    ensures { result ≡ same_request a.now b.now }
{
    a == b
}

// An inform as its station's word.
#[derive(Clone, Copy, Default)]
pub struct Told {
    pub inform: Inform,
}

// Informs say the same when they are alike in view, round, request and result.
impl Word for Told {
    ghost signer = { λ t. t.inform.sender };

    ghost same = { λ t u. alike t.inform u.inform };

    ghost reflexive = { λ a. alike_itself a.inform };

    ghost symmetric = { λ a b e. alike_back a.inform b.inform e };

    ghost transitive = { λ a b c e f. alike_on a.inform b.inform c.inform e f };

    fn signer(&self) -> u16 {
        u16::from(self.inform.sender)
    }

    fn same(&self, other: &Told) -> bool {
        let (a, b) = (&self.inform, &other.inform);
        a.proposal == b.proposal && a.result == b.result
    }
}
