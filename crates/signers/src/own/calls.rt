// Making signers, adding to them, and what they hold.
ghost use Rattle.std.specs.Prelude.{◌≡◌, ℕ, ◌&&◌, is_ok, IfOk, if◌then◌else◌, Some, None, ◌==◌, nat_eq};
ghost use Rattle.signers.specs.Signing.{entry_of, own_of, table_of, seen, made_of};
ghost use Rattle.signers.specs.Tables.{secret_of, added};

use crate::own::Signers;
use crate::row::Entry;
use crate::table::Table;
use quorum::refusal::Fault;

impl<T: Copy> Signers<T> {
    pub fn new(own: u16, secret: T) -> Result<Signers<T>, Fault>
        ensures answer { seen result ≡ made_of own secret }
        ensures secrets { IfOk result (λ signers. (m : ℕ) → secret_of (table_of signers) m ≡ (if nat_eq own m then Some secret else None)) }
    {
        let mut table = Table::new();
        table.add(Entry {
            number: own,
            secret,
        })?;
        Ok(Signers { own, table })
    }

    pub fn own(&self) -> u16
        ensures { result ≡ own_of self.now }
    {
        self.own
    }

    pub fn secret(&self, number: u16) -> Option<T>
        ensures { result ≡ secret_of (table_of self.now) number }
    {
        self.table.secret(number)
    }

    // the secret of the own number
    pub fn own_secret(&self) -> T
        ensures { secret_of (table_of self.now) (own_of self.now) ≡ Some result }
    {
        self.table.secret(self.own).unwrap()
    }

    pub fn add(&mut self, number: u16, secret: T) -> Result<(), Fault>
        ensures answer { (result, table_of self.new) ≡ added (table_of self.old) (entry_of number secret) }
        ensures same_own { own_of self.new ≡ own_of self.old }
        ensures secrets { (m : ℕ) → secret_of (table_of self.new) m ≡ (if is_ok result && number == m then Some secret else secret_of (table_of self.old) m) }
    {
        self.table.add(Entry { number, secret })
    }
}
