// The box of a secret's kind: a signer's genuine tag of a statement is the tag that the signer's secret gives it.
ghost use Rattle.std.specs.Prelude.{◌≡◌, ℕ, ◌&&◌, is_ok, IfOk, if◌then◌else◌, Some, None, ◌==◌, nat_eq};
ghost use Rattle.signers.specs.Signing.{entry_of, made_of};
ghost use Rattle.signers.specs.Tables.{secret_of, added};
ghost use Rattle.std.proofs.Common.{rules};

use crate::own::Signers;
use quorum::refusal::Fault;
use seal_box::SealBox;
use seal_box::secret::Secret;

#[derive(Drop)]
pub struct SecretBox<S> {
    signers: Signers<S>,
}

impl<S: Secret> SecretBox<S> {
    ghost use Rattle.signers.specs.Boxes.{own_number, secrets_of, box_seen};

    // A box with its own number and secret. A number that no one may have is refused.
    pub fn new(own: u16, secret: S) -> Result<SecretBox<S>, Fault>
        ensures answer { box_seen result ≡ made_of own secret }
        ensures secrets { IfOk result (λ box. (m : ℕ) → secret_of (secrets_of box) m ≡ (if nat_eq own m then Some secret else None)) }
    {
        Ok(SecretBox {
            signers: Signers::new(own, secret)?,
        })
    }

    // Another signer's secret. It is refused for a number that no one may have, then where no place is free, then for a
    // number that has a secret.
    pub fn add(&mut self, signer: u16, secret: S) -> Result<(), Fault>
        ensures answer { (result, secrets_of self.new) ≡ added (secrets_of self.old) (entry_of signer secret) }
        ensures same_own { own_number self.new ≡ own_number self.old }
        ensures secrets { (m : ℕ) → secret_of (secrets_of self.new) m ≡ (if is_ok result && signer == m then Some secret else secret_of (secrets_of self.old) m) }
    {
        self.signers.add(signer, secret)
    }
}

impl<S: Secret> SealBox for SecretBox<S> {
    ghost use Rattle.signers.specs.Boxes.{own_number, secrets_of, tag_under, genuine_under};

    ghost genuine = { λ box signer statement seal. genuine_under S.tag_of (secret_of (secrets_of box) signer) statement seal };

    ghost own = { own_number };

    ghost tag = { λ box statement. tag_under S.tag_of (secret_of (secrets_of box) (own_number box)) statement };

    ghost seals = { Prim.search rules };

    fn own(&self) -> u16 {
        self.signers.own()
    }

    fn ask(&self, signer: u16, statement: &[u8], seal: u64) -> bool {
        match self.signers.secret(signer) {
            Some(secret) => seal == secret.tag(statement),
            None => false,
        }
    }

    fn seal(&self, statement: &[u8]) -> u64 {
        self.signers.own_secret().tag(statement)
    }
}
