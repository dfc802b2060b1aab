//! The kinds of a table's columns.
ghost use Rattle.std.specs.Prelude.{◌≡◌};
ghost use Rattle.sql_bound_query.specs.Typing as spec;

use base_decimal::Scale;
use base_schema::ColumnKind;
use expr_scalar::Kind;

/// The kind of the values of a table's column.
pub fn kind_of_column(kind: ColumnKind) -> Kind
    ensures { result ≡ spec.kind_of_column kind }
{
    match kind {
        ColumnKind::Key | ColumnKind::Whole => Kind::Number(Scale::new(0)),
        ColumnKind::Decimal => Kind::Number(Scale::new(2)),
        ColumnKind::Date => Kind::Date,
        ColumnKind::Text(_) => Kind::Text,
    }
}
