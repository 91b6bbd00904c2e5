// Bytes from their hexadecimal digits and back, for the programs that people type records into.
#![tactic(auto)]

ghost use Rattle.std.specs.Prelude.{◌≡◌, IfOk, Some, vec_items};
ghost use Rattle.hex_text.specs.Digits.{digit_of, byte_of, decoded, exactly, spelling};
ghost use Rattle.std.specs.Option.{option_map};
ghost use Rattle.std.specs.Fmt.{WritesOnOk};

use std::alloc::{AllocError, Global};
use std::fmt;

// The value of a digit, in either case of letters.
pub fn digit(c: u8) -> Option<u8>
    ensures { result ≡ digit_of c }
{
    match c {
        b'0'..=b'9' => Some(c - b'0'),
        b'a'..=b'f' => Some(c - b'a' + 10),
        b'A'..=b'F' => Some(c - b'A' + 10),
        _ => None,
    }
}

// The byte that two digits make.
pub fn byte(high: u8, low: u8) -> Option<u8>
    ensures { result ≡ byte_of high low }
{
    let h = digit(high)?;
    let l = digit(low)?;
    Some(h * 16 + l)
}

// The bytes that a text spells, two digits each, or none where it spells none.
pub fn decode(heap: Global, text: &[u8]) -> Result<Option<Vec<u8>>, AllocError>
    ensures { IfOk result (λ o. option_map vec_items o ≡ decoded text.now) }
{
    let (pairs, []) = text.as_chunks::<2>() else {
        return Ok(None);
    };
    let mut bytes = Vec::new(heap);
    for &[high, low] in pairs {
        let Some(b) = byte(high, low) else {
            return Ok(None);
        };
        bytes.push(b)?;
    }
    Ok(Some(bytes))
}

// The N bytes that a text of just twice as many digits spells, or none.
pub fn array<const N: usize>(text: &[u8]) -> Option<[u8; N]>
    ensures { result ≡ exactly N (decoded text.now) }
{
    let (pairs, []) = text.as_chunks::<2>() else {
        return None;
    };
    if pairs.len() != N {
        return None;
    }
    let mut pairs = pairs.iter();
    let mut bytes = [0; N];
    for slot in bytes.iter_mut() {
        let &[high, low] = pairs.next()?;
        *slot = byte(high, low)?;
    }
    Some(bytes)
}

// Each byte as two digits, in lower case.
fn spell<W: fmt::Write>(bytes: &[u8], f: &mut fmt::Formatter<W>) -> fmt::Result
    ensures { WritesOnOk W.write_str_gives f.old result (spelling bytes.now) f.new }
{
    for b in bytes {
        write!(f, "{b:02x}")?;
    }
    Ok(())
}

// Bytes that print as their digits.
#[derive(Clone, Copy)]
pub struct Hex<'a>(pub &'a [u8]);

impl fmt::Display for Hex<'_> {
    ghost output = { λ hex. Some (spelling hex.0.now) };

    fn fmt<W: fmt::Write>(&self, f: &mut fmt::Formatter<W>) -> fmt::Result {
        spell(self.0, f)
    }
}
