//! Whether two expressions are the same, part for part.
ghost use Rattle.std.specs.Prelude.{◌≡◌, IsTrue};

use expr_scalar::{Branch, Expr, Operation};
use sqlite_items::Boxed;

/// Whether two expressions are the same. Where it says so, they are equal.
#[cycle(same)]
pub fn is_same(a: &Expr, b: &Expr) -> bool
    ensures { IsTrue result → a.now ≡ b.now }
{
    match (a, b) {
        (Expr::Column(i), Expr::Column(j)) => *i == *j,
        (Expr::Literal(v), Expr::Literal(w)) => v.is_identical(w),
        (Expr::Negative(x), Expr::Negative(u)) => same_boxed(x, u),
        (Expr::Arithmetic(x, es), Expr::Arithmetic(u, fs)) => {
            same_boxed(x, u) && same_operations(es.as_slice(), fs.as_slice())
        }
        (Expr::Case(s, es, x), Expr::Case(t, fs, u)) => {
            *s == *t && same_branches(es.as_slice(), fs.as_slice()) && same_boxed(x, u)
        }
        (Expr::Extract(p, x), Expr::Extract(q, u)) => *p == *q && same_boxed(x, u),
        (Expr::Substring(x, i, n), Expr::Substring(u, j, m)) => {
            *i == *j && *n == *m && same_boxed(x, u)
        }
        (Expr::Compare(c, x, y), Expr::Compare(d, u, v)) => {
            *c == *d && same_boxed(x, u) && same_boxed(y, v)
        }
        (Expr::Between(x, y, z), Expr::Between(u, v, w)) => {
            same_boxed(x, u) && same_boxed(y, v) && same_boxed(z, w)
        }
        (Expr::Like(x, p), Expr::Like(u, q)) => *p == *q && same_boxed(x, u),
        (Expr::InList(x, es), Expr::InList(u, fs)) => {
            same_boxed(x, u) && same_all(es.as_slice(), fs.as_slice())
        }
        (Expr::IsNull(x), Expr::IsNull(u)) => same_boxed(x, u),
        (Expr::Not(x), Expr::Not(u)) => same_boxed(x, u),
        (Expr::All(es), Expr::All(fs)) => same_all(es.as_slice(), fs.as_slice()),
        (Expr::Any(es), Expr::Any(fs)) => same_all(es.as_slice(), fs.as_slice()),
        (Expr::IsMarked(x), Expr::IsMarked(u)) => same_boxed(x, u),
        _ => false,
    }
}

#[cycle(same)]
fn same_boxed(a: &Boxed<Expr>, b: &Boxed<Expr>) -> bool
    ensures { IsTrue result → a.now ≡ b.now }
{
    is_same(a.get(), b.get())
}

#[cycle(same)]
fn same_all(es: &[Expr], fs: &[Expr]) -> bool
    ensures { IsTrue result → es.now ≡ fs.now }
{
    if es.len() != fs.len() {
        return false;
    }
    for (i, e) in es.iter().enumerate() {
        if !is_same(e, &fs[i]) {
            return false;
        }
    }
    true
}

#[cycle(same)]
fn same_branches(es: &[Branch], fs: &[Branch]) -> bool
    ensures { IsTrue result → es.now ≡ fs.now }
{
    if es.len() != fs.len() {
        return false;
    }
    for (i, e) in es.iter().enumerate() {
        if !is_same(&e.when, &fs[i].when) || !is_same(&e.gives, &fs[i].gives) {
            return false;
        }
    }
    true
}

#[cycle(same)]
fn same_operations(es: &[Operation], fs: &[Operation]) -> bool
    ensures { IsTrue result → es.now ≡ fs.now }
{
    if es.len() != fs.len() {
        return false;
    }
    for (i, e) in es.iter().enumerate() {
        if e.operator != fs[i].operator || !is_same(&e.operand, &fs[i].operand) {
            return false;
        }
    }
    true
}
