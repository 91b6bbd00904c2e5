//! Payloads with their results, and the undoing of each.

use crate::SparesStore;
use payload::Payload;
use services::{Service, Slip};
use std::process::Abort;

const IN: u8 = 3;

const OUT: u8 = 4;

/// A mark, a part, a quantity; the result; the stock that the part has then.
type Row = (u8, u8, u16, u64, Option<u16>);

const TABLE: [Row; 11] = [
    (OUT, 2, 1, 100_000, Some(0)),
    (IN, 2, 5, 5, Some(5)),
    (OUT, 2, 1, 4, Some(4)),
    (OUT, 2, 5, 100_000, Some(4)),
    (IN, 2, 59_996, 60_000, Some(60_000)),
    (IN, 2, 1, 100_001, Some(60_000)),
    (IN, 31, 256, 256, Some(256)),
    (IN, 32, 1, 100_002, None),
    (IN, 2, 0, 100_002, Some(60_000)),
    (5, 2, 1, 100_002, Some(60_000)),
    (OUT, 2, 60_000, 0, Some(0)),
];

fn payload(mark: u8, part: u8, quantity: u16) -> Payload {
    let [high, low] = quantity.to_be_bytes();
    Payload {
        bytes: [mark, part, high, low, 0, 0, 0, 0, 0, 0, 0, 0, 0, 0, 0, 0],
    }
}

/// Applies a row, undoes it, and applies it again.
fn tried(rt: &impl Abort, store: &mut SparesStore, row: Row) {
    let (mark, part, quantity, result, after) = row;
    let payload = payload(mark, part, quantity);
    let before = store.stock(part);
    let (first, slip) = store.apply(&payload);
    assert_eq!(rt; first, result);
    assert_eq!(rt; store.stock(part), after);
    store.undo(&payload, &slip);
    assert_eq!(rt; store.stock(part), before);
    let (again, _) = store.apply(&payload);
    assert_eq!(rt; again, result);
    assert_eq!(rt; store.stock(part), after);
}

#[test]
fn rows_and_their_undoing(rt: HostRuntime) {
    let mut store = SparesStore::new();
    for row in TABLE {
        tried(&rt, &mut store, row);
    }
}

#[test]
fn foreign_slips_and_wrong_bytes(rt: HostRuntime) {
    let mut store = SparesStore::new();
    let one = payload(IN, 2, 1);
    store.undo(
        &one,
        &Slip {
            first: 1,
            second: 2,
            third: 60_001,
        },
    );
    assert_eq!(rt; store.stock(2), Some(0));
    store.undo(
        &one,
        &Slip {
            first: 1,
            second: 32,
            third: 1,
        },
    );
    assert_eq!(rt; store.stock(2), Some(0));
    let mut wrong = one;
    wrong.bytes[15] = 1;
    let (result, _) = store.apply(&wrong);
    assert_eq!(rt; result, 100_002);
}
