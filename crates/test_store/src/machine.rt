//! One session of the machine over two orders, whose tables are cut into one piece each.
use crate::files::{have_keys, insert_nine, two_orders};
use base_schema::TableName;
use std::alloc::Global;
use std::process::Abort;
use store_machine::{Cuts, Machine, Step, step};
use store_state::Refresh;

/// What happens, or what the session's finished scan of the orders has then.
enum Act {
    Publish,
    Offer,
    Compact,
    /// The session begins with these numbers of orders and lineitems.
    Begin(usize, usize),
    /// It begins again at the version that it knows.
    Again(usize, usize),
    /// It goes back to the base.
    Back,
    Learn,
    Scan,
    Finish,
    /// There is no finished scan.
    HasNone,
    /// It has orders of these keys.
    Has(&'static [i128]),
}

/// One piece of each of the last two tables, of these numbers of rows; the other tables have none.
fn one_piece<R: Abort>(rt: &R, alloc: Global, orders: usize, lineitems: usize) -> Cuts {
    let mut lengths = Vec::new(alloc);
    for _table in 0..6 {
        lengths.push(Vec::new(alloc)).expect(rt, "memory");
    }
    for rows in [orders, lineitems] {
        let piece = Vec::from_slice(alloc, &[rows]).expect(rt, "memory");
        lengths.push(piece).expect(rt, "memory");
    }
    Cuts::new(lengths)
}

/// The step that an act is; none where it says what there is.
fn step_of<R: Abort>(rt: &R, alloc: Global, act: &Act) -> Option<Step> {
    let step = match act {
        Act::Publish => Step::Publish,
        Act::Offer => Step::Offer(insert_nine(rt, alloc)),
        Act::Compact => Step::Compact,
        Act::Begin(orders, lines) => Step::Begin(1, one_piece(rt, alloc, *orders, *lines)),
        Act::Again(orders, lines) => Step::Again(1, one_piece(rt, alloc, *orders, *lines)),
        Act::Back => Step::Back(1, 0, one_piece(rt, alloc, 2, 0)),
        Act::Learn => Step::Learn(1, 1),
        Act::Scan => Step::Scan(1, TableName::Orders, 0),
        Act::Finish => Step::Finish(1),
        Act::HasNone | Act::Has(_) => return None,
    };
    Some(step)
}

/// Whether the session's finished scan of the orders has what an act says; true for other acts.
fn has_scanned<R: Abort>(rt: &R, machine: &Machine, act: &Act) -> bool {
    let scanned = machine.scanned(1, TableName::Orders).expect(rt, "memory");
    match act {
        Act::HasNone => scanned.is_none(),
        Act::Has(keys) => match &scanned {
            Some(rows) => have_keys(rows, keys),
            None => false,
        },
        _ => true,
    }
}

/// Lets an act happen, and expects what it says.
fn expect_act<R: Abort>(rt: &R, alloc: Global, machine: &mut Machine, act: &Act) {
    match step_of(rt, alloc, act) {
        Some(taken) => step(machine, taken).expect(rt, "memory"),
        None => assert!(rt; has_scanned(rt, machine, act)),
    }
}

/// Lets all acts happen to a machine of one session over two orders and this list.
fn expect_all<R: Abort>(rt: &R, alloc: Global, list: Vec<Refresh>, acts: &[Act]) {
    let machine = Machine::new(alloc, two_orders(rt, alloc), list, 1);
    let mut machine = machine.expect(rt, "memory");
    for act in acts {
        expect_act(rt, alloc, &mut machine, act);
    }
}

/// Scans what it pins.
const PINS: &[Act] = &[
    Act::Begin(2, 0),
    Act::HasNone,
    Act::Publish,
    Act::HasNone,
    Act::Scan,
    Act::Has(&[7, 8]),
    Act::Compact,
    Act::Has(&[7, 8]),
];

/// Pins anew.
const ANEW: &[Act] = &[
    Act::Begin(2, 0),
    Act::HasNone,
    Act::Publish,
    Act::Begin(3, 1),
    Act::HasNone,
    Act::Scan,
    Act::Has(&[7, 8, 9]),
    Act::Finish,
    Act::HasNone,
];

/// Pins what it knows.
const KNOWN: &[Act] = &[
    Act::Begin(2, 0),
    Act::HasNone,
    Act::Publish,
    Act::Again(2, 0),
    Act::Scan,
    Act::Has(&[7, 8]),
    Act::Learn,
    Act::Again(3, 1),
    Act::Scan,
    Act::Has(&[7, 8, 9]),
];

/// Goes back, but not before the session's first begin.
const BACK: &[Act] = &[
    Act::Publish,
    Act::Back,
    Act::Scan,
    Act::HasNone,
    Act::Begin(3, 1),
    Act::HasNone,
    Act::Back,
    Act::Scan,
    Act::Has(&[7, 8]),
    Act::Again(3, 1),
    Act::Scan,
    Act::Has(&[7, 8, 9]),
];

#[test]
fn scans_an_insert(rt: HostRuntime) {
    let alloc = rt.alloc();
    for acts in [PINS, ANEW, KNOWN, BACK] {
        let mut list = Vec::new(alloc);
        list.push(insert_nine(&rt, alloc)).expect(&rt, "memory");
        expect_all(&rt, alloc, list, acts);
    }
}

const OFFERED: &[Act] = &[
    Act::Publish,
    Act::Offer,
    Act::Begin(2, 0),
    Act::HasNone,
    Act::Publish,
    Act::Begin(3, 1),
    Act::HasNone,
    Act::Scan,
    Act::Has(&[7, 8, 9]),
];

#[test]
fn publishes_what_is_offered(rt: HostRuntime) {
    expect_all(&rt, rt.alloc(), Vec::new(rt.alloc()), OFFERED);
}
