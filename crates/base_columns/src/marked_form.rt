//! The values of a column: a form, and marks where a value is null.
ghost use Rattle.std.specs.Prelude.{◌≡◌, ◌<◌, [], IfOk, IfSome, IsNone, false, length, map};
ghost use Rattle.std.specs.Prelude.{replicate, slice_index_or};
ghost use Rattle.base_null_marks.specs.Marks.{marked};
ghost use Rattle.base_value.specs.declared.value.Value.TheVariants.{Null, Number, Date as DateOf};
ghost use Rattle.base_value.specs.declared.value.Value.TheVariants.{Text as TextOf};
ghost use Rattle.base_columns.specs.Forms.{AreOfForm, is_text};
ghost use Rattle.base_columns.specs.Lists.{gathered, AreBelow};
ghost use Rattle.base_columns.specs.Numbers.{small_number};
ghost use Rattle.base_columns.specs.Shown.{shown};

use crate::column_builder::ColumnForm;
use crate::dictionary::Dictionary;
use crate::form::{
    Form, empty_like, form_at, form_len, form_number, form_text, form_type, gather, repeated,
    stored,
};
use crate::padding::padding;
use crate::places::inside;
use base_date::CivilDate;
use base_decimal::Scale;
use base_null_marks::Marks;
use base_value::Value;
use std::alloc::{AllocError, Global};
use std::marker::Model;

/// Values, seen as their list. A value is null where its place is marked, whatever the form has
/// there. Marks past the end mean nothing.
pub(crate) struct MarkedForm {
    pub(crate) form: Form,
    pub(crate) marks: Marks,
}

impl Drop for MarkedForm {
    #[inline]
    fn drop(self) {
        let MarkedForm { form, marks } = self;
        drop(form);
        drop(marks);
    }
}

impl Model for MarkedForm {
    ghost use Rattle.std.specs.Prelude.{List};
    ghost use Rattle.base_null_marks.specs.Marks.{marked};
    ghost use Rattle.base_value.specs.declared.value.Value.{Value as Datum};
    ghost use Rattle.base_value.specs.declared.value.Value.TheVariants.{Null};
    ghost use Rattle.base_columns.specs.Shown.{shown};

    ghost Value = { List Datum };

    ghost view = { λ m. marked Null m.marks (shown m.form) };
}

#[tactic(auto, using(crate::proofs::MarkedColumns::columns))]
impl MarkedForm {
    /// The values of a form, of which none is marked.
    pub(crate) fn plain(alloc: Global, form: Form) -> MarkedForm
        ensures { result ≡ shown form }
    {
        MarkedForm {
            form,
            marks: Marks::none(alloc),
        }
    }

    /// The values of a form, null where a place is marked.
    pub(crate) fn marked(form: Form, marks: Marks) -> MarkedForm
        ensures { result ≡ marked Null marks (shown form) }
    {
        MarkedForm { form, marks }
    }

    /// The same value n times.
    pub(crate) fn repeated(alloc: Global, value: &Value, n: usize) -> Result<MarkedForm, AllocError>
        ensures { IfOk result (λ m. m ≡ replicate n value.now) }
    {
        match value {
            Value::Null => {
                let zeros = Vec::from_elem(alloc, 0i64, n)?;
                MarkedForm::nulls(alloc, Form::Numbers(Scale::WHOLE, zeros), n)
            }
            _ => {
                let form = repeated(alloc, value, n)?;
                Ok(MarkedForm::plain(alloc, form))
            }
        }
    }

    /// As many nulls as a form has values.
    pub(crate) fn nulls(alloc: Global, form: Form, n: usize) -> Result<MarkedForm, AllocError>
        requires { n ≡ length (shown form) }
        ensures { IfOk result (λ m. m ≡ replicate n Null) }
    {
        let marks = Marks::all(alloc, n)?;
        Ok(MarkedForm { form, marks })
    }

    /// N nulls, kept as these values are.
    pub(crate) fn nulls_like(&self, alloc: Global, n: usize) -> Result<MarkedForm, AllocError>
        ensures { IfOk result (λ m. m ≡ replicate n Null) }
    {
        let form = padding(alloc, &self.form, n)?;
        MarkedForm::nulls(alloc, form, n)
    }

    /// No values, with room for n kept as these values are.
    pub(crate) fn emptied(&self, alloc: Global, n: usize) -> Result<MarkedForm, AllocError>
        ensures { IfOk result (λ m. m ≡ []) }
    {
        let form = empty_like(alloc, &self.form, n)?;
        Ok(MarkedForm::plain(alloc, form))
    }

    /// How many values there are.
    pub(crate) fn len(&self) -> usize
        ensures { result ≡ length self.now }
    {
        form_len(&self.form)
    }

    /// What all values are.
    pub(crate) fn typed(&self) -> ColumnForm
        ensures { AreOfForm result self.now }
    {
        if !self.marks.are_none() {
            return ColumnForm::Values;
        }
        form_type(&self.form)
    }

    /// What all values are that are not null.
    pub(crate) fn kept_form(&self) -> ColumnForm {
        form_type(&self.form)
    }

    /// The value at a place.
    pub(crate) fn at(&self, alloc: Global, i: usize) -> Result<Value, AllocError>
        requires { i < length self.now }
        ensures { IfOk result (λ v. v ≡ slice_index_or self.now i Null) }
    {
        if self.marks.has(i) {
            return Ok(Value::Null);
        }
        form_at(alloc, &self.form, i)
    }

    /// The number at a place, where it is one of 64 bits.
    pub(crate) fn number(&self, i: usize) -> Option<i64>
        requires { i < length self.now }
        ensures { result ≡ small_number (slice_index_or self.now i Null) }
    {
        if self.marks.has(i) {
            return None;
        }
        form_number(&self.form, i)
    }

    /// The bytes of the text at a place, where it is a text.
    pub(crate) fn text(&self, i: usize) -> Option<&[u8]>
        requires { i < length self.now }
        ensures value { IfSome result (λ b. TextOf b.now ≡ slice_index_or self.now i Null) }
        ensures none { IsNone result → is_text (slice_index_or self.now i Null) ≡ false }
    {
        if self.marks.has(i) {
            return None;
        }
        form_text(&self.form, i)
    }

    /// The form, where no value is marked.
    pub(crate) fn unmarked(&self) -> Option<&Form>
        ensures { IfSome result (λ f. self.now ≡ shown f.now) }
    {
        if !self.marks.are_none() {
            return None;
        }
        Some(&self.form)
    }

    /// The form and the marks.
    pub(crate) fn parts(&self) -> (&Form, &Marks)
        ensures { self.now ≡ marked Null result.1.now (shown result.0.now) }
    {
        (&self.form, &self.marks)
    }

    /// The values at these places, in their order.
    pub(crate) fn gather(&self, alloc: Global, places: &[u32]) -> Result<MarkedForm, AllocError>
        requires { AreBelow (length self.now) places.now }
        ensures { IfOk result (λ m. m ≡ gathered Null self.now places.now) }
    {
        let form = gather(alloc, &self.form, places)?;
        let n = form_len(&self.form);
        let marks = self.marks.at_places_below(alloc, n, places)?;
        Ok(MarkedForm { form, marks })
    }

    /// The same, with null for a place past the end.
    pub(crate) fn gather_or_null(
        &self,
        alloc: Global,
        places: &[u32],
    ) -> Result<MarkedForm, AllocError>
        ensures { IfOk result (λ m. m ≡ gathered Null self.now places.now) }
    {
        let n = form_len(&self.form);
        if n == 0 {
            return self.nulls_like(alloc, places.len());
        }
        let inside = inside(alloc, n, places)?;
        let form = gather(alloc, &self.form, inside.as_slice())?;
        let marks = self.marks.at_places(alloc, n, places)?;
        Ok(MarkedForm { form, marks })
    }

    /// The same values kept in the same way, without room for more.
    pub(crate) fn stored(&self, alloc: Global) -> Result<MarkedForm, AllocError>
        ensures { IfOk result (λ m. m ≡ self.now) }
    {
        let form = stored(alloc, &self.form)?;
        let marks = self.marks.first(alloc, form_len(&self.form))?;
        Ok(MarkedForm { form, marks })
    }

    /// All values, of whatever kind.
    pub(crate) fn widened(&self, alloc: Global) -> Result<Vec<Value>, AllocError>
        ensures { IfOk result (λ values. values.items ≡ self.now) }
    {
        let mut values = Vec::with_capacity(alloc, self.len())?;
        for i in 0..self.len() {
            let value = self.at(alloc, i)?;
            values.push(value)?;
        }
        Ok(values)
    }
}
