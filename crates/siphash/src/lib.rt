// SipHash-2-4: a 64-bit tag of a message under a key of 16 bytes.
#![tactic(auto)]

ghost use Rattle.std.specs.Prelude.{◌≡◌, ◌-◌, ◌≤◌, [], ◌∷◌, ◌++◌, length, replicate};
ghost use Rattle.siphash.specs.Siphash.{sipround, start, compressed, finished, siphash_of};

use seal_box::secret::Secret;

// It has no `Debug`, so that no one prints a key.
#[derive(Clone, Copy, PartialEq, Eq)]
pub struct Key(pub [u8; 16]);

// The four words that the hash works on.
#[derive(Clone, Copy)]
struct State {
    v0: u64,
    v1: u64,
    v2: u64,
    v3: u64,
}

impl State {
    fn new(key: &Key) -> State
        ensures { result ≡ start key.now.0 }
    {
        let (words, _) = key.0.as_chunks::<8>();
        let k0 = u64::from_le_bytes(words[0]);
        let k1 = u64::from_le_bytes(words[1]);
        State {
            v0: k0 ^ 0x736f_6d65_7073_6575,
            v1: k1 ^ 0x646f_7261_6e64_6f6d,
            v2: k0 ^ 0x6c79_6765_6e65_7261,
            v3: k1 ^ 0x7465_6462_7974_6573,
        }
    }

    fn round(self) -> State
        ensures { result ≡ sipround self }
    {
        let State {
            mut v0,
            mut v1,
            mut v2,
            mut v3,
        } = self;
        v0 = v0.wrapping_add(v1);
        v1 = v1.rotate_left(13) ^ v0;
        v0 = v0.rotate_left(32);
        v2 = v2.wrapping_add(v3);
        v3 = v3.rotate_left(16) ^ v2;
        v0 = v0.wrapping_add(v3);
        v3 = v3.rotate_left(21) ^ v0;
        v2 = v2.wrapping_add(v1);
        v1 = v1.rotate_left(17) ^ v2;
        v2 = v2.rotate_left(32);
        State { v0, v1, v2, v3 }
    }

    // one word of the message
    fn compress(self, m: u64) -> State
        ensures { result ≡ compressed self m }
    {
        let mixed = State {
            v3: self.v3 ^ m,
            ..self
        };
        let turned = mixed.round().round();
        State {
            v0: turned.v0 ^ m,
            ..turned
        }
    }

    fn finish(self) -> u64
        ensures { result ≡ finished self }
    {
        let marked = State {
            v2: self.v2 ^ 0xff,
            ..self
        };
        let last = marked.round().round().round().round();
        last.v0 ^ last.v1 ^ last.v2 ^ last.v3
    }
}

// up to seven bytes, then null bytes, and one byte on top
fn topped(rest: &[u8], top: u8) -> [u8; 8]
    requires { length rest.now ≤ 7 }
    ensures { result ≡ rest.now ++ (replicate (7 - length rest.now) 0 ++ top ∷ []) }
{
    let mut block = [0; 8];
    block[..rest.len()].copy_from_slice(rest);
    block[7] = top;
    block
}

// The tag of a message under a key.
pub fn siphash(key: &Key, message: &[u8]) -> u64
    ensures { result ≡ siphash_of key.now.0 message.now }
{
    let (words, rest) = message.as_chunks::<8>();
    let last = topped(rest, (message.len() % 256) as u8);
    let mut state = State::new(key);
    for word in words {
        state = state.compress(u64::from_le_bytes(*word));
    }
    state.compress(u64::from_le_bytes(last)).finish()
}

impl Secret for Key {
    ghost tag_of = { λ key statement. siphash_of key.0 statement };

    fn tag(&self, statement: &[u8]) -> u64 {
        siphash(self, statement)
    }
}
