// Some vectors as theorems: the tag is known before the program runs.
ghost use Rattle.std.specs.Prelude.{◌≡◌};

use crate::published::KEY;
use siphash::siphash;

// the empty message
pub fn empty_message() -> u64
    ensures { result ≡ 0x726f_db47_dd0e_0e31 }
{
    siphash(&KEY, &[])
}

// one whole word
pub fn whole_word() -> u64
    ensures { result ≡ 0x93f5_f579_9a93_2462 }
{
    siphash(&KEY, &[0, 1, 2, 3, 4, 5, 6, 7])
}

// the description's worked example, of fifteen bytes
pub fn worked_example() -> u64
    ensures { result ≡ 0xa129_ca61_49be_45e5 }
{
    siphash(&KEY, &[0, 1, 2, 3, 4, 5, 6, 7, 8, 9, 10, 11, 12, 13, 14])
}
