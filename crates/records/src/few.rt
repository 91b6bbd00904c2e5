// A short list: up to N values in place, so that no call has to ask for memory.
#[derive(Clone, Copy)]
pub struct Few<T, const N: usize> {
    pub items: [T; N],
    pub len: usize,
}

pub mod methods;
