//! Set operations, and those of them that go by classes of identical rows.
ghost use Rattle.std.specs.Prelude.{◌≡◌};
ghost use Rattle.base_set_rows.specs.SetOperations.{copies};

/// INTERSECT or EXCEPT, which go by classes of identical rows over both sides.
#[derive(Clone, Copy, Drop, PartialEq, Eq)]
pub enum ClassKind {
    /// What both sides have.
    Intersect,
    /// What the left side has beyond the right one.
    Except,
}

/// What is made of the rows of two sides. UNION without ALL is the DISTINCT of UNION ALL.
#[derive(Clone, Copy, Drop, PartialEq, Eq)]
pub enum SetOperation {
    /// UNION ALL.
    Union,
    /// INTERSECT or EXCEPT, and whether with ALL.
    Classes(ClassKind, bool),
}

/// How many rows a class gives that has a rows on the left and b on the right: with ALL, and
/// without.
pub fn copies(kind: ClassKind, all: bool, a: u32, b: u32) -> u32
    ensures { result ≡ copies kind all a b }
{
    match kind {
        ClassKind::Intersect => {
            if all {
                a.min(b)
            } else if a > 0 && b > 0 {
                1
            } else {
                0
            }
        }
        ClassKind::Except => {
            if all {
                a.saturating_sub(b)
            } else if a > 0 && b == 0 {
                1
            } else {
                0
            }
        }
    }
}
