//! Expressions over one row, and over a batch as over each of its rows.
use base_columns::{Batch, BatchBuilder, Column, ColumnForm};
use base_decimal::Scale;
use base_text::Text;
use base_value::{Fault, Row, Standing, Truth, Value};
use exec_column_expr::{truths_of, values_of};
use expr_operators::{Arithmetic, Comparison};
use expr_scalar::{Branch, Expr, Operation, eval, eval_slice, truth, truth_slice};
use sqlite_items::{Boxed, Items};
use std::alloc::Global;
use std::process::Abort;

const MOST: i128 = 170141183460469231731687303715884105727;

fn whole(n: i128) -> Value {
    Value::Number(Scale::WHOLE, n)
}

fn number(n: i128) -> Expr {
    Expr::Literal(whole(n))
}

fn key() -> Expr {
    Expr::Column(0)
}

fn boxed<R: Abort>(rt: &R, alloc: Global, e: Expr) -> Boxed<Expr> {
    Boxed::new(alloc, e).expect(rt, "memory")
}

// One operator between two operands.
fn operated<R: Abort>(
    rt: &R,
    alloc: Global,
    first: Expr,
    operator: Arithmetic,
    operand: Expr,
) -> Expr {
    let operations = vec![in alloc; Operation { operator, operand }].expect(rt, "memory");
    Expr::Arithmetic(boxed(rt, alloc, first), Items::from_vec(operations))
}

// 1 / x
fn inverse<R: Abort>(rt: &R, alloc: Global, x: Expr) -> Expr {
    operated(rt, alloc, number(1), Arithmetic::Divide, x)
}

fn compared<R: Abort>(
    rt: &R,
    alloc: Global,
    comparison: Comparison,
    left: Expr,
    right: Expr,
) -> Expr {
    Expr::Compare(comparison, boxed(rt, alloc, left), boxed(rt, alloc, right))
}

// a = 3 and 1 / x = 1
fn both<R: Abort>(rt: &R, alloc: Global, a: Expr, x: Expr) -> Expr {
    let first = compared(rt, alloc, Comparison::Equal, a, number(3));
    let inverse = inverse(rt, alloc, x);
    let second = compared(rt, alloc, Comparison::Equal, inverse, number(1));
    let es = vec![in alloc; first, second].expect(rt, "memory");
    Expr::All(Items::from_vec(es))
}

// case when $0 = 3 then 1 else 2.50 end
fn chosen<R: Abort>(rt: &R, alloc: Global) -> Expr {
    let when = compared(rt, alloc, Comparison::Equal, key(), number(3));
    let gives = number(1);
    let branches = vec![in alloc; Branch { when, gives }].expect(rt, "memory");
    let cents = Scale::new(2);
    let other = Expr::Literal(Value::Number(cents, 250));
    Expr::Case(cents, Items::from_vec(branches), boxed(rt, alloc, other))
}

fn text<R: Abort>(rt: &R, alloc: Global, bytes: &[u8]) -> Text {
    Text::new(alloc, bytes).expect(rt, "a text")
}

// How many kinds of expressions there are.
const KINDS: u32 = 8;

// An expression of each kind: a column, one past the row, a quotient, a comparison, a pattern, a
// choice, and a condition with a fault, also negated.
fn of_kind<R: Abort>(rt: &R, alloc: Global, kind: u32) -> Expr {
    match kind {
        0 => key(),
        1 => Expr::Column(9),
        2 => inverse(rt, alloc, key()),
        3 => compared(rt, alloc, Comparison::Greater, key(), number(0)),
        4 => Expr::Like(boxed(rt, alloc, Expr::Column(1)), text(rt, alloc, b"M%")),
        5 => chosen(rt, alloc),
        6 => both(rt, alloc, key(), number(0)),
        _ => Expr::Not(boxed(rt, alloc, both(rt, alloc, number(3), key()))),
    }
}

fn push<R: Abort>(rt: &R, alloc: Global, rows: &mut BatchBuilder, key: Value, text: Value) {
    let row = [key, text];
    assert!(rt; rows.width() == row.len());
    rows.push_row(alloc, &row, Standing::AtTrue)
        .expect(rt, "memory");
}

// A number and a text, zero and a text, a null and a text, and a fault and a null.
fn rows<R: Abort>(rt: &R, alloc: Global) -> Batch {
    let forms = [ColumnForm::Values, ColumnForm::Texts];
    let mut rows = BatchBuilder::new(alloc, &forms).expect(rt, "memory");
    push(
        rt,
        alloc,
        &mut rows,
        whole(3),
        Value::Text(text(rt, alloc, b"MAIL")),
    );
    push(
        rt,
        alloc,
        &mut rows,
        whole(0),
        Value::Text(text(rt, alloc, b"AIR")),
    );
    push(
        rt,
        alloc,
        &mut rows,
        Value::Null,
        Value::Text(text(rt, alloc, b"MAIL")),
    );
    push(
        rt,
        alloc,
        &mut rows,
        Value::Fault(Fault::TooManyRows),
        Value::Null,
    );
    rows.finish(alloc).expect(rt, "memory")
}

// Whether an expression has this value and this truth over a row.
fn gives<R: Abort>(
    rt: &R,
    alloc: Global,
    e: &Expr,
    row: &[Value],
    wanted: &Value,
    decided: Truth,
) -> bool {
    let value = eval_slice(alloc, e, row).expect(rt, "memory");
    value.is_identical(wanted) && truth_slice(alloc, e, row).expect(rt, "memory") == decided
}

// Expects that a column and truths have at a place what an expression has over the row there.
fn expect_at<R: Abort>(
    rt: &R,
    alloc: Global,
    e: &Expr,
    rows: &Batch,
    column: &Column,
    truths: &[Truth],
    i: usize,
) {
    assert!(rt; i < rows.len() && i < column.len() && i < truths.len());
    let row = rows.row(alloc, i).expect(rt, "memory");
    let wanted = column.at(alloc, i).expect(rt, "memory");
    assert!(rt; gives(rt, alloc, e, &row, &wanted, truths[i]));
}

// Expects that values and truths of an expression over the rows are those that it has over each.
fn expect_agreement<R: Abort>(rt: &R, alloc: Global, e: &Expr, rows: &Batch) {
    let column = values_of(alloc, e, rows).expect(rt, "memory");
    let truths = truths_of(alloc, e, rows).expect(rt, "memory");
    assert!(rt; rows.len() == 4 && column.len() == 4 && truths.len() == 4);
    for i in 0..4 {
        expect_at(rt, alloc, e, rows, &column, &truths, i);
    }
}

#[test]
fn gives_what_each_row_gives(rt: HostRuntime) {
    let rows = rows(&rt, rt.alloc());
    for kind in 0..KINDS {
        let e = of_kind(&rt, rt.alloc(), kind);
        expect_agreement(&rt, rt.alloc(), &e, &rows);
    }
}

// A row of the number 3.
fn three<R: Abort>(rt: &R, alloc: Global) -> Row {
    Row::from_slice(alloc, &[whole(3)]).expect(rt, "memory")
}

// Expects the value over it of this number, the operator and the column.
fn expect_value<R: Abort>(rt: &R, alloc: Global, n: i128, operator: Arithmetic, wanted: Value) {
    let e = operated(rt, alloc, number(n), operator, key());
    let value = eval(alloc, &e, &three(rt, alloc)).expect(rt, "memory");
    assert!(rt; value.is_identical(&wanted));
}

// The truth over it of `a = 3 and 1 / 0 = 1`.
fn decided<R: Abort>(rt: &R, alloc: Global, a: Expr) -> Truth {
    let e = both(rt, alloc, a, number(0));
    truth(alloc, &e, &three(rt, alloc)).expect(rt, "memory")
}

// A quotient, a sum past the range, a fault, and one that is hidden.
#[test]
fn computes_over_a_row(rt: HostRuntime) {
    let quotient = Value::Number(Scale::new(6), 666_667);
    expect_value(&rt, rt.alloc(), 2, Arithmetic::Divide, quotient);
    expect_value(
        &rt,
        rt.alloc(),
        MOST,
        Arithmetic::Add,
        Value::Fault(Fault::NumberRange),
    );
    let fault = Truth::Stands(Standing::AtFault(Fault::DivideByZero));
    assert!(rt; decided(&rt, rt.alloc(), key()) == fault);
    assert!(rt; decided(&rt, rt.alloc(), number(4)) == Truth::False);
}
