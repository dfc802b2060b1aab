//! Scans of lineitems in one piece, in four and in eighty pieces of one row, and of no pieces.
use base_columns::Bag;
use base_decimal::Scale;
use base_schema::{DataFile, TableName};
use base_value::Value;
use exec_parallel_scan::{scan_groups, scan_rows};
use expr_aggregates::AggregateFunction;
use expr_operators::Comparison;
use expr_scalar::Expr;
use plan_algebra::{Aggregate, Piece};
use sqlite_items::Boxed;
use std::alloc::Global;
use std::process::Abort;
use std::thread::Threads;
use store_file_reader::read_pieces;

const FIRST: &[u8] =
    b"1|1|1|1|30.00|5.00|0.00|0.00|R|O|1996-02-01|1996-02-02|1996-02-03|NONE|MAIL|w|\n";

const SECOND: &[u8] =
    b"1|1|1|2|20.00|5.00|0.00|0.00|A|O|1996-02-01|1996-02-02|1996-02-03|NONE|MAIL|w|\n";

const THIRD: &[u8] =
    b"2|1|1|1|40.50|5.00|0.00|0.00|R|F|1996-02-01|1996-02-02|1996-02-03|NONE|MAIL|w|\n";

const FOURTH: &[u8] =
    b"3|1|1|2|50.00|5.00|0.00|0.00|A|F|1996-02-01|1996-02-02|1996-02-03|NONE|MAIL|w|\n";

// A piece for each file, after others.
fn put_pieces<R: Abort>(rt: &R, alloc: Global, files: &[&[&[u8]]], pieces: &mut Vec<Piece>) {
    for lines in files {
        let rows = read_pieces(alloc, DataFile::Table(TableName::Lineitem), lines);
        let rows = rows.expect(rt, "rows");
        for segment in rows.segments() {
            let segment = segment.clone().expect(rt, "a share");
            pieces.push(Piece::whole(segment)).expect(rt, "memory");
        }
    }
}

// A piece for each file, so many times.
fn pieces_of<R: Abort>(rt: &R, alloc: Global, files: &[&[&[u8]]], times: usize) -> Vec<Piece> {
    let mut pieces = Vec::new(alloc);
    for _time in 0..times {
        put_pieces(rt, alloc, files, &mut pieces);
    }
    pieces
}

// The lineitems of more than 20 parts.
fn more_than_20<R: Abort>(rt: &R, alloc: Global) -> Expr {
    let quantity = Boxed::new(alloc, Expr::Column(4)).expect(rt, "memory");
    let bound = Expr::Literal(Value::Number(Scale::WHOLE, 20));
    let bound = Boxed::new(alloc, bound).expect(rt, "memory");
    Expr::Compare(Comparison::Greater, quantity, bound)
}

// Their orders and quantities.
fn scanned<R: Threads + Sync + Abort>(rt: &R, alloc: Global, pieces: &[Piece]) -> Bag {
    let condition = more_than_20(rt, alloc);
    let columns = [Expr::Column(0), Expr::Column(4)];
    scan_rows(rt, alloc, pieces, &condition, &columns).expect(rt, "memory")
}

// Aggregates of the quantity, but the last, which counts the lines' numbers.
const FUNCTIONS: [(AggregateFunction, u8, u32); 5] = [
    (AggregateFunction::Sum, 2, 4),
    (AggregateFunction::Avg, 2, 4),
    (AggregateFunction::Min, 2, 4),
    (AggregateFunction::Max, 2, 4),
    (AggregateFunction::CountDistinct, 0, 3),
];

// How many rows there are, and those aggregates.
fn aggregates<R: Abort>(rt: &R, alloc: Global) -> Vec<Aggregate> {
    let mut all = vec![in alloc; Aggregate::CountRows].expect(rt, "memory");
    for (function, places, column) in &FUNCTIONS {
        assert!(rt; *places <= 18);
        let argument = Boxed::new(alloc, Expr::Column(*column)).expect(rt, "memory");
        let aggregate = Aggregate::Of(*function, Scale::new(*places), argument);
        all.push(aggregate).expect(rt, "memory");
    }
    all
}

// Their groups by these columns.
fn grouped<R: Threads + Sync + Abort>(rt: &R, alloc: Global, pieces: &[Piece], by: &[Expr]) -> Bag {
    let condition = more_than_20(rt, alloc);
    let aggregates = aggregates(rt, alloc);
    let groups = scan_groups(rt, alloc, pieces, &condition, by, &aggregates);
    groups.expect(rt, "memory")
}

// Whether the numbers of a row are these, texts apart.
fn has_numbers(row: &[Value], wanted: &[i128]) -> bool {
    let mut left = wanted;
    for value in row {
        if let Value::Number(_, number) = value {
            match left {
                [first, rest @ ..] if *first == *number => left = rest,
                _ => return false,
            }
        }
    }
    left.is_empty()
}

// Expects a bag's rows to have these numbers in turn, so many times.
fn expect_rows<R: Abort>(rt: &R, alloc: Global, bag: &Bag, wanted: &[&[i128]], times: usize) {
    assert!(rt; bag.len() == wanted.len().saturating_mul(times));
    let mut turn = 0usize;
    for batch in bag.batches() {
        for i in 0..batch.len() {
            let row = batch.row(alloc, i).expect(rt, "memory");
            assert!(rt; turn < wanted.len() && has_numbers(&row, wanted[turn]));
            turn = turn.saturating_add(1);
            if turn == wanted.len() {
                turn = 0;
            }
        }
    }
}

// The rows, the groups by the flag R and A, and all as one group: how many, the sum, the average,
// the least and the greatest of their quantities, and how many numbers their lines have.
const ROWS: &[&[i128]] = &[&[1, 3000], &[2, 4050], &[3, 5000]];

const BY_FLAG: &[&[i128]] = &[
    &[2, 7050, 35_250_000, 3000, 4050, 1],
    &[1, 5000, 50_000_000, 5000, 5000, 1],
];

const AS_ONE: &[&[i128]] = &[&[3, 12050, 40_166_667, 3000, 5000, 2]];

// The same of twenty times as many rows.
const TWENTY_BY_FLAG: &[&[i128]] = &[
    &[40, 141_000, 35_250_000, 3000, 4050, 1],
    &[20, 100_000, 50_000_000, 5000, 5000, 1],
];

const TWENTY_AS_ONE: &[&[i128]] = &[&[60, 241_000, 40_166_667, 3000, 5000, 2]];

// Expects these groups of pieces by the flag, and as one.
fn expect_groups<R: Threads + Sync + Abort>(
    rt: &R,
    alloc: Global,
    pieces: &[Piece],
    by_flag: &[&[i128]],
    as_one: &[&[i128]],
) {
    let flags = grouped(rt, alloc, pieces, &[Expr::Column(8)]);
    expect_rows(rt, alloc, &flags, by_flag, 1);
    expect_rows(rt, alloc, &grouped(rt, alloc, pieces, &[]), as_one, 1);
}

// Expects what the lineitems of these files give, a piece for each.
fn expect_scans<R: Threads + Sync + Abort>(rt: &R, alloc: Global, files: &[&[&[u8]]]) {
    let pieces = pieces_of(rt, alloc, files, 1);
    expect_rows(rt, alloc, &scanned(rt, alloc, &pieces), ROWS, 1);
    expect_groups(rt, alloc, &pieces, BY_FLAG, AS_ONE);
}

// As one file, and as four.
#[test]
fn cut_into_pieces(rt: HostRuntime) {
    expect_scans(&rt, rt.alloc(), &[&[FIRST, SECOND, THIRD, FOURTH]]);
    expect_scans(&rt, rt.alloc(), &[&[FIRST], &[SECOND], &[THIRD], &[FOURTH]]);
}

// Eighty pieces of one row.
#[test]
fn cut_into_many_pieces(rt: HostRuntime) {
    let alloc = rt.alloc();
    let files: &[&[&[u8]]] = &[&[FIRST], &[SECOND], &[THIRD], &[FOURTH]];
    let pieces = pieces_of(&rt, alloc, files, 20);
    assert!(rt; pieces.len() == 80);
    expect_rows(&rt, alloc, &scanned(&rt, alloc, &pieces), ROWS, 20);
    expect_groups(&rt, alloc, &pieces, TWENTY_BY_FLAG, TWENTY_AS_ONE);
}

#[test]
fn no_pieces(rt: HostRuntime) {
    let alloc = rt.alloc();
    let rows = scanned(&rt, alloc, &[]);
    assert!(rt; rows.is_empty() && rows.width() == 2);
    let groups = grouped(&rt, alloc, &[], &[Expr::Column(8)]);
    assert!(rt; groups.is_empty() && groups.width() == 7);
    let one = grouped(&rt, alloc, &[], &[]);
    assert!(rt; one.len() == 1 && one.width() == 6);
}
