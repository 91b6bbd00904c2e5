//! What holds of the store, in the words of those who use it.

ghost use Rattle.spares_store.specs.Rules.{StoreRules};

/// One out of an empty stock is one too few; only a stock as the result changes a stock, the one it is about, to that
/// result; 32 stocks within their bounds stay so.
pub fn store_rules()
    ensures { StoreRules }
{}
