//! A column of values of one kind, or of any.
ghost use Rattle.std.specs.Prelude.{◌≡◌, ◌<◌, ◌==◌, ℕ, IfOk, IfSome, length, slice_index_or, map};
ghost use Rattle.std.specs.Prelude.{[], replicate, IsNone, false};
ghost use Rattle.std.specs.Arc.{arc_value};
ghost use Rattle.base_value.specs.declared.value.Value.TheVariants.{Null, Number, Date as DateOf};
ghost use Rattle.base_value.specs.declared.value.Value.TheVariants.{Text as TextOf};
ghost use Rattle.base_columns.specs.Forms.{AreOfForm, is_text};
ghost use Rattle.base_columns.specs.Lists.{gathered, AreBelow};
ghost use Rattle.base_columns.specs.Numbers.{small_number};
ghost use Rattle.base_null_marks.specs.Marks.{marked};

use crate::column_builder::ColumnForm;
use crate::dictionary::Dictionary;
use crate::form::Form;
use crate::marked_form::MarkedForm;
use base_date::CivilDate;
use base_decimal::Scale;
use base_null_marks::Marks;
use base_value::Value;
use std::alloc::{AllocError, Global};
use std::marker::Model;
use std::sync::Arc;

// A column's values, its own or shared with others.
#[derive(Drop)]
pub(crate) enum Kept {
    Own(MarkedForm),
    Shared(Arc<MarkedForm>),
}

/// Values, seen as their list. Numbers of one scale and 64 bits, dates, and texts are kept in
/// little room, and nulls among them as marks.
pub struct Column {
    pub(crate) kept: Kept,
}

impl Drop for Column {
    #[inline]
    fn drop(self) {
        let Column { kept } = self;
        drop(kept);
    }
}

impl Model for Column {
    ghost use Rattle.std.specs.Prelude.{List};
    ghost use Rattle.base_value.specs.declared.value.Value.{Value as Datum};
    ghost use Rattle.base_columns.specs.KeptValues.{kept_values};

    ghost Value = { List Datum };

    ghost view = { λ c. kept_values c.kept };
}

#[tactic(auto, using(crate::proofs::MarkedColumns::forms))]
impl Column {
    /// Numbers of one scale.
    pub fn from_numbers(scale: Scale, numbers: Vec<i64>) -> Column
        ensures { result ≡ map (Number scale) numbers.items }
    {
        let alloc = *numbers.allocator();
        Column::own(MarkedForm::plain(alloc, Form::Numbers(scale, numbers)))
    }

    /// Numbers of one scale, null where a place is marked.
    pub fn from_marked_numbers(scale: Scale, numbers: Vec<i64>, marks: Marks) -> Column
        ensures { result ≡ marked Null marks (map (Number scale) numbers.items) }
    {
        Column::own(MarkedForm::marked(Form::Numbers(scale, numbers), marks))
    }

    /// Values of whatever kind, each kept as it is.
    pub fn from_values(values: Vec<Value>) -> Column
        ensures { result ≡ values.items }
    {
        let alloc = *values.allocator();
        Column::own(MarkedForm::plain(alloc, Form::Values(values)))
    }

    /// The same value n times.
    pub fn repeated(alloc: Global, value: &Value, n: usize) -> Result<Column, AllocError>
        ensures { IfOk result (λ c. c ≡ replicate n value.now) }
    {
        let values = MarkedForm::repeated(alloc, value, n)?;
        Column::shared(alloc, values)
    }

    /// N nulls, kept as this column's values are.
    pub fn nulls_like(&self, alloc: Global, n: usize) -> Result<Column, AllocError>
        ensures { IfOk result (λ c. c ≡ replicate n Null) }
    {
        let values = self.values().nulls_like(alloc, n)?;
        Column::shared(alloc, values)
    }

    // A column that shares nothing.
    pub(crate) fn own(values: MarkedForm) -> Column
        ensures { result ≡ values }
    {
        Column {
            kept: Kept::Own(values),
        }
    }

    // A column whose further shares copy nothing.
    fn shared(alloc: Global, values: MarkedForm) -> Result<Column, AllocError>
        ensures { IfOk result (λ c. c ≡ values) }
    {
        let values = Arc::new(alloc, values)?;
        Ok(Column {
            kept: Kept::Shared(values),
        })
    }

    // The values, own or shared.
    pub(crate) fn values(&self) -> &MarkedForm
        ensures { result.now ≡ self.now }
    {
        match &self.kept {
            Kept::Own(values) => values,
            Kept::Shared(values) => &**values,
        }
    }

    /// How many values there are.
    pub fn len(&self) -> usize
        ensures { result ≡ length self.now }
    {
        self.values().len()
    }

    /// Whether there is no value.
    pub fn is_empty(&self) -> bool
        ensures { result ≡ (length self.now == 0) }
    {
        self.len() == 0
    }

    /// The value at a place. A text of a stored column is a share of its buffer, or of a
    /// dictionary's text; one of another column may be a copy.
    pub fn at(&self, alloc: Global, i: usize) -> Result<Value, AllocError>
        requires { i < length self.now }
        ensures { IfOk result (λ v. v ≡ slice_index_or self.now i Null) }
    {
        self.values().at(alloc, i)
    }

    /// What all values are, where the column keeps them as numbers of one scale, as dates or as
    /// texts, without marks of nulls. `Values` says nothing of them.
    pub fn typed(&self) -> ColumnForm
        ensures { AreOfForm result self.now }
    {
        self.values().typed()
    }

    /// What the values are kept as that are not null: the form for a column that is to take the
    /// same and more.
    pub fn kept_form(&self) -> ColumnForm {
        self.values().kept_form()
    }

    /// The numbers and their scale, where the column keeps all as 64 bits each, without marks of
    /// nulls.
    pub fn as_numbers(&self) -> Option<(Scale, &[i64])>
        ensures { IfSome result (λ p. self.now ≡ map (Number p.0) p.1.now) }
    {
        match self.values().unmarked() {
            Some(Form::Numbers(scale, numbers)) => Some((*scale, numbers.as_slice())),
            _ => None,
        }
    }

    /// The dates, where the column keeps all as dates, without marks of nulls.
    pub fn as_dates(&self) -> Option<&[CivilDate]>
        ensures { IfSome result (λ d. self.now ≡ map DateOf d.now) }
    {
        match self.values().unmarked() {
            Some(Form::Dates(dates)) => Some(dates.as_slice()),
            _ => None,
        }
    }

    /// The texts as places of a dictionary, where the column keeps all so, without marks of nulls.
    pub fn as_codes(&self) -> Option<(&[u8], &Dictionary)>
        ensures texts { IfSome result (λ p. self.now ≡ map TextOf (gathered [] p.1.now p.0.now)) }
        ensures below { IfSome result (λ p. AreBelow (length p.1.now) p.0.now) }
    {
        match self.values().unmarked() {
            Some(Form::Coded(codes)) => Some(codes.parts()),
            _ => None,
        }
    }

    /// The numbers, their scale and where they are null, where the column keeps all as 64 bits
    /// each. No mark at all is kept where `as_numbers` gives the numbers.
    pub fn marked_numbers(&self) -> Option<(Scale, &[i64], &Marks)>
        ensures { IfSome result
            (λ p. self.now ≡ marked Null p.2.now (map (Number p.0) p.1.now)) }
    {
        let (form, marks) = self.values().parts();
        match form {
            Form::Numbers(scale, numbers) => Some((*scale, numbers.as_slice(), marks)),
            _ => None,
        }
    }

    /// The dates and where they are null, where the column keeps all as dates.
    pub fn marked_dates(&self) -> Option<(&[CivilDate], &Marks)>
        ensures { IfSome result (λ p. self.now ≡ marked Null p.1.now (map DateOf p.0.now)) }
    {
        let (form, marks) = self.values().parts();
        match form {
            Form::Dates(dates) => Some((dates.as_slice(), marks)),
            _ => None,
        }
    }

    /// The texts as places of a dictionary and where they are null, where the column keeps all so.
    pub fn marked_codes(&self) -> Option<(&[u8], &Dictionary, &Marks)>
        ensures texts { IfSome result (λ p. self.now
            ≡ marked Null p.2.now (map TextOf (gathered [] p.1.now p.0.now))) }
        ensures below { IfSome result (λ p. AreBelow (length p.1.now) p.0.now) }
    {
        let (form, marks) = self.values().parts();
        match form {
            Form::Coded(codes) => {
                let (places, dictionary) = codes.parts();
                Some((places, dictionary, marks))
            }
            _ => None,
        }
    }

    /// The bytes of the text at a place, of which nothing is copied, where it is a text.
    pub fn text(&self, i: usize) -> Option<&[u8]>
        requires { i < length self.now }
        ensures value { IfSome result (λ b. TextOf b.now ≡ slice_index_or self.now i Null) }
        ensures none { IsNone result → is_text (slice_index_or self.now i Null) ≡ false }
    {
        self.values().text(i)
    }

    /// The number at a place, where it is one of 64 bits.
    pub fn number(&self, i: usize) -> Option<i64>
        requires { i < length self.now }
        ensures { result ≡ small_number (slice_index_or self.now i Null) }
    {
        self.values().number(i)
    }

    /// The values at these places, in their order.
    pub fn gather(&self, alloc: Global, places: &[u32]) -> Result<Column, AllocError>
        requires { AreBelow (length self.now) places.now }
        ensures { IfOk result (λ c. c ≡ gathered Null self.now places.now) }
    {
        let values = self.values().gather(alloc, places)?;
        Column::shared(alloc, values)
    }

    /// The values at these places, in their order, and null for a place past the end.
    pub fn gather_or_null(&self, alloc: Global, places: &[u32]) -> Result<Column, AllocError>
        ensures { IfOk result (λ c. c ≡ gathered Null self.now places.now) }
    {
        let values = self.values().gather_or_null(alloc, places)?;
        Column::shared(alloc, values)
    }

    /// The same values: a further share of a stored or gathered column, else a copy, of which later
    /// ones are shares.
    pub fn share(&self, alloc: Global) -> Result<Column, AllocError>
        ensures { IfOk result (λ c. c ≡ self.now) }
    {
        match &self.kept {
            Kept::Own(values) => stored_column(alloc, values),
            Kept::Shared(values) => {
                let values = values.clone()?;
                Ok(Column {
                    kept: Kept::Shared(values),
                })
            }
        }
    }
}

/// A stored column: the same values, shared and without room for more.
pub(crate) fn stored_column(alloc: Global, values: &MarkedForm) -> Result<Column, AllocError>
    ensures { IfOk result (λ c. c ≡ values.now) }
{
    let values = values.stored(alloc)?;
    Column::shared(alloc, values)
}
