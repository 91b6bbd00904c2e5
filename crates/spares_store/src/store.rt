//! The store itself.

ghost use Rattle.spares_store.specs.Stocks.{Bounded};

/// 32 stocks by part, none above 60,000.
#[derive(Clone, Copy)]
pub struct SparesStore {
    pub(crate) stocks: [u16; 32],
    ghost bounded: { Bounded stocks },
}
