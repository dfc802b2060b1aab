//! A column that grows.
ghost use Rattle.std.specs.Prelude.{◌≡◌, ◌<◌, ◌≤◌, ◌++◌, ◌∷◌, [], IfOk, OnOk, OnErr, length};
ghost use Rattle.std.specs.Prelude.{take, slice_index_or};
ghost use Rattle.base_value.specs.declared.value.Value.TheVariants.{Null};
ghost use Rattle.base_columns.specs.Numbers.{small_number};
ghost use Rattle.base_columns.specs.Fields.{field_value, IsPrintableField};

use crate::codes::Codes;
use crate::column::{Column, stored_column};
use crate::field::Field;
use crate::form::Form;
use crate::marked_form::MarkedForm;
use base_decimal::Scale;
use base_value::Value;
use std::alloc::{AllocError, Global};
use std::marker::Model;

/// What a column is expected to hold. It takes any value, but keeps these, and nulls among them, in
/// little room.
#[derive(Clone, Copy)]
pub enum ColumnForm {
    /// Numbers of this scale and 64 bits.
    Numbers(Scale),
    Dates,
    /// Texts, as places of a dictionary while at most 256 differ.
    Texts,
    /// Values of any kind.
    Values,
}

/// Values, seen as their list. The first value that is not null and doesn't fit the column's form
/// gives it a wider one. A push that fails leaves it as before.
pub struct ColumnBuilder {
    values: MarkedForm,
}

impl Drop for ColumnBuilder {
    #[inline]
    fn drop(self) {
        let ColumnBuilder { values } = self;
        drop(values);
    }
}

impl Model for ColumnBuilder {
    ghost use Rattle.std.specs.Prelude.{List};
    ghost use Rattle.base_value.specs.declared.value.Value.{Value as Datum};

    ghost Value = { List Datum };

    ghost view = { λ c. c.values };
}

impl ColumnBuilder {
    /// No values, of which some of that form are expected.
    pub fn new(alloc: Global, form: ColumnForm) -> Result<ColumnBuilder, AllocError>
        ensures { IfOk result (λ c. c ≡ []) }
    {
        let form = match form {
            ColumnForm::Numbers(scale) => Form::Numbers(scale, Vec::new(alloc)),
            ColumnForm::Dates => Form::Dates(Vec::new(alloc)),
            ColumnForm::Texts => Form::Coded(Codes::new(alloc)?),
            ColumnForm::Values => Form::Values(Vec::new(alloc)),
        };
        Ok(ColumnBuilder {
            values: MarkedForm::plain(alloc, form),
        })
    }

    /// No values, with room for n kept as the column's are.
    pub fn like(alloc: Global, column: &Column, n: usize) -> Result<ColumnBuilder, AllocError>
        ensures { IfOk result (λ c. c ≡ []) }
    {
        let values = column.values().emptied(alloc, n)?;
        Ok(ColumnBuilder { values })
    }

    /// How many values there are.
    pub fn len(&self) -> usize
        ensures { result ≡ length self.now }
    {
        self.values.len()
    }

    // The number at a place, where it is one of 64 bits.
    pub(crate) fn number(&self, i: usize) -> Option<i64>
        requires { i < length self.now }
        ensures { result ≡ small_number (slice_index_or self.now i Null) }
    {
        self.values.number(i)
    }

    /// One field more.
    pub fn push_field(&mut self, alloc: Global, field: &Field<'_>) -> Result<(), AllocError>
        requires { IsPrintableField field.now }
        ensures ok { OnOk result (self.new ≡ self.old ++ field_value field.now ∷ []) }
        ensures err { OnErr result (self.new ≡ self.old) }
    {
        self.values.push_field(alloc, field)
    }

    /// One null more, for which the column's form stays as it is.
    pub fn push_null(&mut self, alloc: Global) -> Result<(), AllocError>
        ensures ok { OnOk result (self.new ≡ self.old ++ Null ∷ []) }
        ensures err { OnErr result (self.new ≡ self.old) }
    {
        self.values.push_null(alloc)
    }

    /// One value more.
    pub fn push(&mut self, alloc: Global, value: &Value) -> Result<(), AllocError>
        ensures ok { OnOk result (self.new ≡ self.old ++ value.now ∷ []) }
        ensures err { OnErr result (self.new ≡ self.old) }
    {
        self.values.push(alloc, value)
    }

    /// The first n values alone.
    pub fn truncate(&mut self, n: usize)
        requires { n ≤ length self.old }
        ensures { self.new ≡ take n self.old }
    {
        self.values.truncate(n);
    }

    /// All values of a column at the end.
    pub fn append(&mut self, alloc: Global, other: &Column) -> Result<(), AllocError>
        ensures ok { OnOk result (self.new ≡ self.old ++ other.now) }
        ensures err { OnErr result (self.new ≡ self.old) }
    {
        self.values.append(alloc, other.values())
    }

    /// The values as a column.
    pub fn finish(self) -> Column
        ensures { result ≡ self }
    {
        let ColumnBuilder { values } = self;
        Column::own(values)
    }

    /// The values as a stored column, which takes no more room than they do.
    pub(crate) fn stored(&self, alloc: Global) -> Result<Column, AllocError>
        ensures { IfOk result (λ c. c ≡ self.now) }
    {
        stored_column(alloc, &self.values)
    }
}
