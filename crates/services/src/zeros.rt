//! The part of a payload that a layout leaves empty.

ghost use Rattle.services.specs.Zeros.{all_zero};
ghost use Rattle.std.specs.Prelude.{◌≡◌};

const EMPTY: u8 = 0;

/// Whether every byte is zero.
pub fn is_all_zero(bytes: &[u8]) -> bool
    ensures { result ≡ all_zero bytes.now }
{
    bytes.iter().all(|&byte| byte == EMPTY)
}
