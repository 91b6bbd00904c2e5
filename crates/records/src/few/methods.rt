// How a short list is made, grown and read.
ghost use Rattle.std.specs.Prelude.{◌≡◌, ◌≤◌, length};
ghost use Rattle.records.specs.Lists.{listed, bare, pushed};

use crate::few::Few;

impl<T: Copy, const N: usize> Few<T, N> {
    // No value yet; `blank` fills the places.
    pub fn new(blank: T) -> Few<T, N>
        ensures { result ≡ bare blank N }
    {
        Few {
            items: [blank; N],
            len: 0,
        }
    }

    // One value more; a full list stays as it is.
    pub fn push(&mut self, value: T)
        ensures { self.new ≡ pushed N self.old value }
    {
        if self.len < N {
            let at = self.len;
            self.items[at] = value;
            self.len = at + 1;
        }
    }

    pub fn as_slice(&self) -> &[T]
        ensures value { result.now ≡ listed self.now }
        ensures bound { length result.now ≤ N }
    {
        let all = &self.items[..];
        if self.len < all.len() {
            &all[0..self.len]
        } else {
            all
        }
    }
}

// The default is no value, in places that hold the default of theirs.
impl<T: Copy + Default, const N: usize> Default for Few<T, N> {
    ghost is_default = { λ few. (blank : T) × (T.is_default blank × (few ≡ bare blank N)) };

    fn default() -> Few<T, N> {
        Few::new(T::default())
    }
}
