//! Refreshes that are compared.
use crate::files::{NINE, delete_nine, insert, insert_nine};
use std::process::Abort;
use store_state::Refresh;

/// Another lineitem of the order of a refresh.
const NINE_TWO: &[u8] =
    b"9|1|1|2|1.00|5.00|0.00|0.00|N|O|1996-02-01|1996-02-02|1996-02-03|NONE|MAIL|w|\n";

/// Expects that a refresh is found to be the same as another one, or not.
fn expect_same<R: Abort>(rt: &R, refresh: &Refresh, other: Refresh, wanted: bool) {
    assert!(rt; refresh.is_same(&other) == wanted);
}

#[test]
fn finds_the_same(rt: HostRuntime) {
    let alloc = rt.alloc();
    let insertion = insert_nine(&rt, alloc);
    expect_same(&rt, &insertion, insert_nine(&rt, alloc), true);
    expect_same(
        &rt,
        &insertion,
        insertion.clone().expect(&rt, "memory"),
        true,
    );
    expect_same(&rt, &insertion, insert(&rt, alloc, NINE, NINE_TWO), false);
    expect_same(&rt, &insertion, delete_nine(&rt, alloc), false);
    expect_same(&rt, &delete_nine(&rt, alloc), delete_nine(&rt, alloc), true);
}
