// A signer's number and key.
ghost use Rattle.std.specs.Prelude.{MatchResult};
ghost use Rattle.ring_lines.specs.Lines.{IsKeyLine, IsNoKeyLine};

use hex_text::array;
use siphash::Key;
use std::str::FromStr;

#[derive(Clone, Copy)]
pub struct SignerKey {
    pub number: u16,
    pub key: Key,
}

// The text is no number with a key.
#[derive(Clone, Copy, Debug)]
pub struct NoKey;

impl FromStr for SignerKey {
    type Err = NoKey;

    ghost from_str_gives = { λ text r. MatchResult r (λ s. IsKeyLine text s.number s.key.0) (λ _. IsNoKeyLine text) };

    fn from_str(text: &str) -> Result<SignerKey, NoKey> {
        let (number, digits) = text.split_once(' ').ok_or(NoKey)?;
        let number = number.parse().map_err(|_| NoKey)?;
        let bytes = array(digits.as_bytes()).ok_or(NoKey)?;
        Ok(SignerKey {
            number,
            key: Key(bytes),
        })
    }
}
