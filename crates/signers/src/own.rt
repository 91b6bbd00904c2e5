// The signers of a seal box: its own number, and the secrets that it has, that of its own number always among them.
ghost use Rattle.std.specs.Prelude.{◌≡◌, true, is_some};
ghost use Rattle.signers.specs.Tables.{secret_of};

use crate::table::Table;

#[derive(Drop)]
pub struct Signers<T> {
    own: u16,
    table: Table<T>,
    ghost known: { is_some (secret_of table own) ≡ true },
}

pub mod calls;
