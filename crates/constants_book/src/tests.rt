//! Payloads with their results, and the undoing of each.

use crate::ConstantsBook;
use payload::Payload;
use services::{Service, Slip};
use std::process::Abort;

const SET: u8 = 1;

const CLEAR: u8 = 2;

/// A mark, a serial, an offset; the result; the offset that the serial has then.
type Row = (u8, u32, i32, u64, Option<i32>);

const TABLE: [Row; 12] = [
    (CLEAR, 7, 0, 3, None),
    (SET, 7, 20_000, 0, Some(20_000)),
    (SET, 7, 20_001, 2, Some(20_000)),
    (SET, 7, -20_000, 0, Some(-20_000)),
    (SET, 7, -20_001, 2, Some(-20_000)),
    (SET, 0, -1, 0, Some(-1)),
    (SET, 4_294_967_295, 256, 0, Some(256)),
    (CLEAR, 7, 5, 2, Some(-20_000)),
    (3, 7, 0, 2, Some(-20_000)),
    (CLEAR, 7, 0, 0, None),
    (CLEAR, 7, 0, 3, None),
    (CLEAR, 0, 0, 0, None),
];

fn payload(mark: u8, serial: u32, offset: i32) -> Payload {
    let [a, b, c, d] = serial.to_be_bytes();
    let [p, q, r, s] = offset.to_be_bytes();
    Payload {
        bytes: [mark, a, b, c, d, 0, 0, 0, 0, 0, 0, 0, p, q, r, s],
    }
}

/// Applies a row, undoes it, and applies it again.
fn tried(rt: &impl Abort, book: &mut ConstantsBook, row: Row) {
    let (mark, serial, offset, result, after) = row;
    let payload = payload(mark, serial, offset);
    let before = book.offset(serial);
    let (first, slip) = book.apply(&payload);
    assert_eq!(rt; first, result);
    assert_eq!(rt; book.offset(serial), after);
    book.undo(&payload, &slip);
    assert_eq!(rt; book.offset(serial), before);
    let (again, _) = book.apply(&payload);
    assert_eq!(rt; again, result);
    assert_eq!(rt; book.offset(serial), after);
}

#[test]
fn rows_and_their_undoing(rt: HostRuntime) {
    let mut book = ConstantsBook::new();
    for row in TABLE {
        tried(&rt, &mut book, row);
    }
}

#[test]
fn a_full_book(rt: HostRuntime) {
    let mut book = ConstantsBook::new();
    for serial in 0..64 {
        tried(&rt, &mut book, (SET, serial, 10, 0, Some(10)));
    }
    tried(&rt, &mut book, (SET, 64, 10, 1, None));
    tried(&rt, &mut book, (SET, 64, 20_001, 2, None));
    tried(&rt, &mut book, (SET, 63, -10, 0, Some(-10)));
    tried(&rt, &mut book, (CLEAR, 63, 0, 0, None));
    tried(&rt, &mut book, (SET, 64, 10, 0, Some(10)));
}

#[test]
fn foreign_slips_and_wrong_bytes(rt: HostRuntime) {
    let mut book = ConstantsBook::new();
    let set = payload(SET, 7, 1);
    book.undo(
        &set,
        &Slip {
            first: 2,
            second: 20_001,
            third: 0,
        },
    );
    assert_eq!(rt; book.offset(7), None);
    book.undo(
        &set,
        &Slip {
            first: 9,
            second: 0,
            third: 9,
        },
    );
    assert_eq!(rt; book.offset(7), None);
    let mut wrong = set;
    wrong.bytes[11] = 1;
    let (result, _) = book.apply(&wrong);
    assert_eq!(rt; result, 2);
}
