//! One call of each kind that no run makes.
use base_columns::{Bag, stored_rows};
use base_decimal::{Scale, write_decimal};
use base_key_tables::{Chains, pairs};
use base_schema::{DataFile, TableName};
use base_value::{Row, Value};
use std::alloc::Global;
use std::process::Abort;
use store_file_reader::read_pieces;

// Coefficients, the digits behind the point, and texts.
const DECIMALS: &[(i128, u8, &str)] = &[
    (-50, 2, "-0.50"),
    (0, 2, "0.00"),
    (666_667, 6, "0.666667"),
    (-12, 0, "-12"),
    (i128::MIN, 18, "-170141183460469231731.687303715884105728"),
];

#[test]
fn writes_decimals(rt: HostRuntime) {
    for (coefficient, digits, text) in DECIMALS {
        assert!(rt; *digits <= 18);
        let written = write_decimal(rt.alloc(), *coefficient, Scale::new(*digits));
        assert!(rt; written.expect(&rt, "memory").as_slice() == text.as_bytes());
    }
}

// How many rows a bag has of a table of one row.
fn bag_len<R: Abort>(rt: &R, alloc: Global, values: Vec<Value>) -> usize {
    let width = values.len();
    let row = Row::new(values).expect(rt, "memory");
    let rows = stored_rows(alloc, &[row]).expect(rt, "memory");
    Bag::from_rows(alloc, width, &rows)
        .expect(rt, "memory")
        .len()
}

#[test]
fn makes_a_bag_of_stored_rows(rt: HostRuntime) {
    let alloc = rt.alloc();
    let values = vec![in alloc; Value::Number(Scale::WHOLE, 1), Value::Null];
    assert!(rt; bag_len(&rt, alloc, values.expect(&rt, "memory")) == 1);
}

// The places of equal keys, by the left ones and then by the right ones.
#[test]
fn pairs_equal_keys(rt: HostRuntime) {
    let right = [(5i64, 0i64), (7, 0), (5, 0), (5, 1), (7, 0), (5, 0)];
    let left = [(7i64, 0i64), (9, 0), (5, 0)];
    let chains = Chains::new(rt.alloc(), &right).expect(&rt, "memory");
    let (lefts, rights) = pairs(rt.alloc(), &left, &chains).expect(&rt, "memory");
    assert!(rt; *lefts.as_slice() == *[0u32, 0, 2, 2, 2].as_slice());
    assert!(rt; *rights.as_slice() == *[1u32, 4, 0, 2, 5].as_slice());
}

#[test]
fn reads_pieces(rt: HostRuntime) {
    let pieces: &[&[u8]] = &[b"0|A|a|\n1|", b"B|b|\n"];
    let rows = read_pieces(rt.alloc(), DataFile::Table(TableName::Region), pieces);
    assert!(rt; rows.expect(&rt, "rows").len() == 2);
}
