//! Bound expressions without subqueries. A column is a place of one flat row, counted from 0.
use base_decimal::Scale;
use base_text::Text;
use base_value::Value;
use expr_operators::{Arithmetic, Comparison, DatePart};
use sqlite_items::{Boxed, Items};

/// An expression. Each has a value and a truth: a condition's value is null, and any other one's
/// truth is Unknown.
#[cycle(expr)]
pub enum Expr {
    /// The value at a place of the row; null where the row has no such place.
    Column(u32),
    /// A written value, or one that binding has worked out, as a moved date.
    Literal(Value),
    /// Minus, of a number.
    Negative(Boxed<Expr>),
    /// The first operand, and the operations on it from left to right. A chain is one node, so that
    /// the height of an expression does not grow with the length of its chains.
    Arithmetic(Boxed<Expr>, Items<Operation>),
    /// CASE: its branches, and what stands after ELSE, which is null where there is none. Its
    /// numbers are of this scale, the largest of its branches'. The first condition that is True or
    /// a fault decides.
    Case(Scale, Items<Branch>, Boxed<Expr>),
    /// A part of a date, as a whole number.
    Extract(DatePart, Boxed<Expr>),
    /// A part of a text: the text, the first place from 1 on, and how many bytes.
    Substring(Boxed<Expr>, u32, u32),
    /// Two values compared: numbers by their values whatever their scales, texts byte by byte.
    Compare(Comparison, Boxed<Expr>, Boxed<Expr>),
    /// The value, the least and the greatest that it may be: the AND of two comparisons.
    Between(Boxed<Expr>, Boxed<Expr>, Boxed<Expr>),
    /// The value and the pattern, in which `_` stands for one byte and `%` for any bytes.
    Like(Boxed<Expr>, Text),
    /// The value and the list: the OR of its equalities.
    InList(Boxed<Expr>, Items<Expr>),
    /// True of null; of a fault that fault.
    IsNull(Boxed<Expr>),
    /// NOT: exchanges True and False, and leaves the rest.
    Not(Boxed<Expr>),
    /// AND; True of no conditions.
    All(Items<Expr>),
    /// OR; False of no conditions.
    Any(Items<Expr>),
    /// The truth that a mark stands for: 1 for True, 0 for False, null for Unknown, and a fault.
    IsMarked(Boxed<Expr>),
}

impl Drop for Expr {
    #[cycle(drop)]
    #[inline]
    fn drop(self) {
        match self {
            Expr::Column(_) => {}
            Expr::Literal(kept) => drop(kept),
            Expr::Negative(kept) => drop(kept),
            Expr::Arithmetic(first, second) => {
                drop(first);
                drop(second);
            }
            Expr::Case(_, first, second) => {
                drop(first);
                drop(second);
            }
            Expr::Extract(_, kept) => drop(kept),
            Expr::Substring(kept, _, _) => drop(kept),
            Expr::Compare(_, first, second) => {
                drop(first);
                drop(second);
            }
            Expr::Between(first, second, third) => {
                drop(first);
                drop(second);
                drop(third);
            }
            Expr::Like(first, second) => {
                drop(first);
                drop(second);
            }
            Expr::InList(first, second) => {
                drop(first);
                drop(second);
            }
            Expr::IsNull(kept) => drop(kept),
            Expr::Not(kept) => drop(kept),
            Expr::All(kept) => drop(kept),
            Expr::Any(kept) => drop(kept),
            Expr::IsMarked(kept) => drop(kept),
        }
    }
}

/// A branch of a CASE.
#[cycle(expr)]
#[derive(Drop)]
pub struct Branch {
    /// The condition.
    pub when: Expr,
    /// What the branch gives where the condition is True.
    pub gives: Expr,
}

/// What is done to the value on its left: `+ operand`, `- operand`, `* operand` or `/ operand`.
#[cycle(expr)]
#[derive(Drop)]
pub struct Operation {
    /// The operator.
    pub operator: Arithmetic,
    /// The operand on its right.
    pub operand: Expr,
}
