// The keyed box: it tags a statement by SipHash-2-4 with the signer's key.
#![tactic(auto)]

use signers::secret_box::SecretBox;
use siphash::Key;

pub type KeyedBox = SecretBox<Key>;

#[cfg(test)]
mod tests {
    use super::*;
    use quorum::refusal::Fault;
    use seal_box::SealBox;
    use std::test::Fail;

    #[test]
    fn refuses_in_order(rt: HostRuntime) -> Result<(), Fail> {
        let key = Key([7; 16]);
        let mut seals = KeyedBox::new(1_000, key)?;
        assert_eq!(rt; seals.add(10, key), Err(Fault::WrongSender(0)));
        assert_eq!(rt; seals.add(999, key), Err(Fault::WrongSender(0)));
        assert_eq!(rt; seals.add(1_000, key), Err(Fault::Conflict(0)));
        assert_eq!(rt; seals.add(9, key), Ok(()));
        for number in 1_001..1_016u16 {
            assert_eq!(rt; seals.add(number, key), Ok(()));
        }
        assert_eq!(rt; seals.add(1_000, key), Err(Fault::OutOfRange(0)));
        assert_eq!(rt; seals.add(9, key), Err(Fault::Conflict(0)));
        Ok(())
    }

    #[test]
    fn knows_seals(rt: HostRuntime) -> Result<(), Fail> {
        let mut seals = KeyedBox::new(3, Key([7; 16]))?;
        seals.add(4, Key([8; 16]))?;
        let tag = seals.seal(b"ab");
        assert!(rt; seals.ask(3, b"ab", tag));
        assert!(rt; !seals.ask(3, b"ac", tag));
        assert!(rt; !seals.ask(4, b"ab", tag));
        assert!(rt; !seals.ask(5, b"ab", tag));
        Ok(())
    }
}
