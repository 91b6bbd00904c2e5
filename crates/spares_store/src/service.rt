//! The store as a service, and what people read of it.

ghost use Rattle.std.specs.Prelude.{◌≡◌, ℕ, List};
ghost use Rattle.spares_store.specs.Movements.{movement_of};
ghost use Rattle.spares_store.specs.Slips.{Applied, Undoes, former_in, put_back};
ghost use Rattle.spares_store.specs.Stocks.{answer, empty_store, stepped, stock_of};

use crate::former::Former;
use crate::movement::Movement;
use crate::refusal::Refusal;
use crate::store::SparesStore;
use payload::Payload;
use services::{Service, Slip};

impl SparesStore {
    /// A new store has nothing of any part.
    pub fn new() -> SparesStore
        ensures { result.stocks ≡ empty_store }
    {
        SparesStore { stocks: [0; 32] }
    }

    /// The stock of a part, if there is such a part.
    pub fn stock(&self, part: u8) -> Option<u16>
        ensures { result ≡ stock_of self.now.stocks part }
    {
        self.stocks.get(usize::from(part)).copied()
    }

    /// Carries out what the payload asks for: the new stock of the part with what undoing has to know, or why not.
    fn step(&mut self, payload: &Payload) -> Result<(u16, Former), Refusal>
        ensures { Applied self.old.stocks (movement_of payload.now) result self.new.stocks }
    {
        let movement = Movement::try_from(payload)?;
        let part = movement.part;
        let stock = &mut self.stocks[usize::from(part)];
        let former = Former {
            part,
            stock: *stock,
        };
        *stock = movement.moved(former.stock)?;
        Ok((*stock, former))
    }
}

impl Service for SparesStore {
    ghost State = { List ℕ };

    ghost state = { λ store. store.stocks };

    ghost step = { stepped };

    ghost result_of = { answer };

    ghost undoes = { Undoes };

    fn apply(&mut self, payload: &Payload) -> (u64, Slip) {
        match self.step(payload) {
            Ok((stock, former)) => (stock.into(), former.into()),
            Err(refusal) => (refusal.into(), Slip::default()),
        }
    }

    /// Puts back the stock that the slip tells of, whoever wrote the slip.
    fn undo(&mut self, payload: &Payload, slip: &Slip)
        ensures exact { (stocks : List ℕ) → self.old.stocks ≡ stepped stocks payload.now → Undoes stocks payload.now slip.now → self.new.stocks ≡ stocks }
        ensures restores { self.new.stocks ≡ put_back self.old.stocks (former_in slip.now) }
    {
        if let Ok(former) = Former::try_from(slip) {
            self.stocks[former.part as usize] = former.stock;
        }
    }
}
